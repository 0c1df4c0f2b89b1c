ghost use Rattle.std.specs.Prelude.{◌≡◌, true};
ghost use Rattle.splitting_rule.specs.Listed.{ListsFollow, RefusalsListed, RowsListed};

// That the rule leaves nothing open: its rows and its refusals are those that are computed on lists.
pub fn rule_is_computed() -> bool
    ensures lists_follow_rule { ListsFollow }
    ensures rule_gives_listed_rows { RowsListed }
    ensures rule_gives_listed_refusals { RefusalsListed }
    ensures stands { result ≡ true }
{
    true
}
