// What a receiver is fed in a run.
ghost use Rattle.std.specs.Prelude.{◌≡◌, ◌≤◌, ◌++◌, map, length, drop, is_some, IfOk, vec_items, OnOk};
ghost use Rattle.std.specs.Option.{option_to_list};
ghost use Rattle.guarantee.specs.Spells.{lines_from, until_withdrawn};
ghost use Rattle.runs.specs.Rehearsals.{told_of, line_told, withdrawn_told};
ghost use Rattle.station.specs.Calls.{answered};

use station::call::{Answer, Reply};
use station::refusal::Refusal;
use std::alloc::{AllocError, Global};

// Whether the answer is that of a granted tick.
fn is_tick(answer: &Result<Answer, Refusal>) -> bool
    ensures of_tick { result ≡ is_some (line_told (answered answer.now)) }
{
    matches!(answer, Ok(Answer::Ticked(_, _)))
}

// Whether the answer is that the station is off air.
fn is_withdrawn(answer: &Result<Answer, Refusal>) -> bool
    ensures of_withdrawal { result ≡ withdrawn_told (answered answer.now) }
{
    matches!(answer, Ok(Answer::Withdrawn))
}

// Notes a copy of what was sent, where the answer is that of a granted tick.
fn note_line(
    heap: Global,
    lines: &mut Vec<Vec<u16>>,
    answer: &Result<Answer, Refusal>,
) -> Result<(), AllocError>
    ensures notes_line { OnOk result (map vec_items lines.new.items ≡ map vec_items lines.old.items ++ option_to_list (line_told (answered answer.now))) }
{
    if let Ok(Answer::Ticked(_, line)) = answer {
        lines.push(Vec::from_slice(heap, line.as_slice())?)?;
    }
    Ok(())
}

// Where, among the replies, the granted tick with a number stands; their end where there is none.
fn place_of_tick(replies: &[Reply], tick: usize) -> usize
    ensures among_replies { result ≤ length replies.now }
    ensures feeds_from { lines_from tick (told_of replies.now) ≡ until_withdrawn (told_of (drop result replies.now)) }
{
    let mut left = tick;
    for (place, reply) in replies.iter().enumerate() {
        if is_tick(&reply.answer) {
            if left == 0 {
                return place;
            }
            left -= 1;
        }
    }
    replies.len()
}

// What was sent until the station was withdrawn.
fn sent_in(heap: Global, replies: &[Reply]) -> Result<Vec<Vec<u16>>, AllocError>
    ensures until_withdrawn { IfOk result (λ v. map vec_items v.items ≡ until_withdrawn (told_of replies.now)) }
{
    let mut lines = Vec::new(heap);
    for reply in replies {
        if is_withdrawn(&reply.answer) {
            return Ok(lines);
        }
        note_line(heap, &mut lines, &reply.answer)?;
    }
    Ok(lines)
}

// What a receiver is fed that tunes in at the granted tick with a number.
pub(crate) fn lines_after(
    heap: Global,
    replies: &[Reply],
    tick: usize,
) -> Result<Vec<Vec<u16>>, AllocError>
    ensures lines_from_tick { IfOk result (λ v. map vec_items v.items ≡ lines_from tick (told_of replies.now)) }
{
    sent_in(heap, &replies[place_of_tick(replies, tick)..])
}
