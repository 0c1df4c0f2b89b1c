// A slot's pages and the bytes of a film's pages in a store, one byte each: page p's lies at place p - 1.
ghost use Rattle.std.specs.Prelude.{◌≡◌, ◌≤◌, not, ◌&&◌, length};
ghost use Rattle.receiver.specs.Stores.{member, wanted, taken, held, stock, fresh};

// Kept so: marks are bytes, since the caller lends the store as bytes and reads them there.
pub const HELD: u8 = 1;

pub const SHOWN: u8 = 2;

// Whether a number is a page of the film that is neither held nor shown.
fn is_wanted(film: &[u8], page: u16) -> bool
    ensures by_film { result ≡ wanted (length film.now) film.now page }
{
    let Some(place) = usize::from(page).checked_sub(1) else {
        return false;
    };
    film.get(place)
        .is_some_and(|byte| *byte != HELD && *byte != SHOWN)
}

// How many pages are held.
fn held_count(film: &[u8]) -> usize
    ensures counts_held { result ≡ held (length film.now) film.now }
{
    let mut count = 0;
    // Kept so: `filter` and `count` are five steps a byte, and this loop, which the compiler takes several bytes at a time, is one.
    for byte in film {
        if *byte == HELD {
            count += 1;
        }
    }
    count
}

// Whether a slot's page is wanted and does not come again among those after it.
fn is_fresh(film: &[u8], page: u16, after: &[u16]) -> bool
    ensures wanted_last { result ≡ (wanted (length film.now) film.now page
        && not (member page after.now)) }
{
    is_wanted(film, page) && !after.contains(&page)
}

// How many pages a slot adds.
fn fresh_count(film: &[u8], pages: &[u16]) -> usize
    ensures counts_fresh { result ≡ fresh (length film.now) film.now pages.now }
{
    let mut count = 0;
    let mut rest = pages;
    while let Some((page, after)) = rest.split_first() {
        if is_fresh(film, *page, after) {
            count += 1;
        }
        rest = after;
    }
    count
}

// The stock in a slot with these pages.
pub(crate) fn stock_of(film: &[u8], pages: &[u16]) -> u16
    requires short { length film.now ≤ 65535 }
    ensures held_and_fresh { result ≡ stock (length film.now) film.now pages.now }
{
    (held_count(film) + fresh_count(film, pages)) as u16
}

// Holds the wanted ones among a slot's pages.
pub fn take_in(film: &mut [u8], pages: &[u16])
    ensures takes_wanted { film.new ≡ taken (length film.old) film.old pages.now }
{
    for page in pages {
        if is_wanted(film, *page) {
            film[usize::from(*page) - 1] = HELD;
        }
    }
}
