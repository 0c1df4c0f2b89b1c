ghost use Rattle.std.specs.Prelude.{◌≡◌, ◌+◌, ◌*◌, ◌<◌, ◌≤◌, length, All};
ghost use Rattle.bag.specs.Bags.{held, room, SameMemory};
ghost use Rattle.splitting_rule.specs.Answers.{Askable, AllZero, FillAnswer, SplittingAnswer, SplittingApart, SplittingListed, SplittingSound};
ghost use Rattle.sequences.specs.Sequences.{Usable};
ghost use Rattle.splitting_rule.specs.Steps.{AfterChannels, AfterRest, AfterPage, AfterPages};

use bag::bag::{Bag, Full};
use plans::refusal::Refusal;
use records::kinds::{Film, Row};
use rows::period::rows_period;
use sequences::sequence::FreeSequence;

// Has the bag hold every slot of each channel, and nothing else.
fn put_channels(bag: &mut Bag<FreeSequence>, channels: u8) -> Result<(), Full>
    ensures channels_or_full { AfterChannels channels bag.old bag.new result }
    ensures same_memory { SameMemory bag.old bag.new }
{
    bag.clear();
    for channel in 1..=channels {
        bag.put(FreeSequence {
            channel,
            start: 0,
            period: 1,
        })?;
    }
    Ok(())
}

// Puts back the pieces of a sequence that is cut into `parts`, all but the first.
fn put_rest(bag: &mut Bag<FreeSequence>, sequence: FreeSequence, parts: u32) -> Result<(), Full>
    requires small { parts * sequence.period < 4096 }
    requires starts { sequence.start < sequence.period }
    ensures rest_or_full { AfterRest sequence parts bag.old bag.new result }
    ensures same_memory { SameMemory bag.old bag.new }
{
    for j in 1..parts {
        bag.put(FreeSequence {
            channel: sequence.channel,
            start: sequence.start + j * sequence.period,
            period: parts * sequence.period,
        })?;
    }
    Ok(())
}

// The row of the next page, after so many pages: the first free sequence is cut, and the rest of it stays free.
fn place_page(bag: &mut Bag<FreeSequence>, placed: usize, delay: u16) -> Result<Row, Refusal>
    requires small { delay + placed < 4096 }
    requires all_usable { All (Usable (delay + placed)) (held bag.old) }
    ensures row_or_refusal { AfterPage placed (delay + placed) bag.old bag.new result }
    ensures same_memory { SameMemory bag.old bag.new }
{
    let window = u32::from(delay) + placed as u32;
    let sequence = bag
        .take_first(window)
        .ok_or(Refusal::NoFreeSequence(placed))?;
    let parts = window / sequence.period;
    put_rest(bag, sequence, parts).map_err(|_full| Refusal::NoRoom)?;
    Ok(Row {
        page: placed as u16 + 1,
        channel: sequence.channel,
        start: sequence.start,
        period: parts * sequence.period,
    })
}

// A row for each page, from the sequences that are free.
fn place_pages(bag: &mut Bag<FreeSequence>, rows: &mut [Row], delay: u16) -> Result<(), Refusal>
    requires small { (delay ≤ 1024) × (length rows.old ≤ 1024) }
    requires all_usable { All (Usable delay) (held bag.old) }
    ensures rows_or_refusal { AfterPages delay (length rows.old) bag.old bag.new rows.new result }
    ensures same_memory { SameMemory bag.old bag.new }
{
    for (placed, row) in rows.iter_mut().enumerate() {
        *row = place_page(bag, placed, delay)?;
    }
    Ok(())
}

// The plan in the first rows, and its period. What it leaves in the other rows, where it refuses, and in the bag is open.
fn fill(film: Film, rows: &mut [Row], bag: &mut Bag<FreeSequence>) -> Result<u32, Refusal>
    requires askable { Askable film.delay film.channels film.pages }
    ensures plan_or_none { FillAnswer film.delay film.channels film.pages (room bag.old) rows.old rows.new result }
    ensures same_memory { SameMemory bag.old bag.new }
{
    let count = usize::from(film.pages);
    if rows.len() < count {
        return Err(Refusal::NoRoom);
    }
    put_channels(bag, film.channels).map_err(|_full| Refusal::NoRoom)?;
    place_pages(bag, &mut rows[..count], film.delay)?;
    rows_period(&rows[..count])
}

// Makes every row the zero row.
fn clear_rows(rows: &mut [Row])
    ensures all_zero { AllZero rows.new }
{
    rows.fill(Row::default());
}

// Kept so: the three numbers of the film are the public signature, which callers have.
// Plans a film of 1 to 1,024 pages for a delay of 1 to 1,024 slots on 1 to 8 channels. The first rows, one for each page, are
// then the plan, and the answer is its period. The bag is for the sequences that are free while the pages are placed.
pub fn plan(
    delay: u16,
    channels: u8,
    pages: u16,
    rows: &mut [Row],
    bag: &mut Bag<FreeSequence>,
) -> Result<u32, Refusal>
    ensures plan_or_refusal { SplittingAnswer delay channels pages rows.old rows.new bag.old bag.new result }
    ensures same_memory { SameMemory bag.old bag.new }
    ensures rows_as_computed { SplittingListed delay channels pages (room bag.old) rows.new result }
    ensures no_shared_slot { SplittingApart pages rows.new result }
    ensures starves_nobody { SplittingSound delay channels pages rows.new result }
{
    let film = Film {
        delay,
        pages,
        channels,
    };
    if !film.is_in_range() {
        return Err(Refusal::OutOfRange);
    }
    let filled = fill(film, rows, bag);
    bag.clear();
    if filled.is_err() {
        clear_rows(rows);
    }
    filled
}
