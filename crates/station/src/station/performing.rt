// Any of the calls, as a value, and its reply.
ghost use Rattle.std.specs.Prelude.{◌≡◌, ◌≤◌, [], length, take, IfOk, vec_len, MatchResult};
ghost use Rattle.station.specs.Calls.{Does, replied, answered, granted, TellsFindings, TellsTick};
ghost use Rattle.station.specs.States.{seen, by_close, by_reopen, by_survey, by_unit, passed};
ghost use Rattle.station.specs.declared.call.Call.TheVariants.{Close as CloseCall, Reopen as ReopenCall, Check as CheckCall, Findings as FindingsCall, Survey as SurveyCall, Air as AirCall, Tick as TickCall, Withdraw as WithdrawCall};

use super::Station;
use crate::call::{Answer, Call, Reply};
use crate::phase::Phase;
use crate::refusal::Refusal;
use crate::slip::Slip;
use bag::bag::Bag;
use bag::draining::take_all;
use bag::finding::Finding;
use records::kinds::Closure;
use std::alloc::{AllocError, Global};
use timetable::interface::Timetable;

// The answer of a call that answers nothing else where it is granted.
fn unit_answer(res: Result<(), Refusal>, answer: Answer) -> Result<Answer, Refusal>
    ensures tells_result { answered result ≡ by_unit (granted answer) res }
{
    res.map(|()| answer)
}

// The answer of closing; the slip is kept.
fn close_answer(res: Result<Slip, Refusal>) -> Result<Answer, Refusal>
    ensures tells_result { answered result ≡ by_close res }
{
    let slip = res?;
    let answer = Answer::Closed(slip.mark, slip.entry);
    slip.keep();
    Ok(answer)
}

// The answer of opening again; a slip that is handed back is kept.
fn reopen_answer(res: Result<(), (Refusal, Slip)>) -> Result<Answer, Refusal>
    ensures tells_result { answered result ≡ by_reopen res }
{
    res.map_err(|(refusal, slip)| {
        slip.keep();
        refusal
    })?;
    Ok(Answer::Reopened)
}

fn survey_answer(res: Result<(u16, u32), Refusal>) -> Result<Answer, Refusal>
    ensures tells_result { answered result ≡ by_survey res }
{
    res.map(|(peak, slot)| Answer::Surveyed(peak, slot))
}

// The answer of the findings, which are taken out of the bag in order.
fn findings_answer(
    heap: Global,
    res: Result<usize, Refusal>,
    bag: &mut Bag<Finding>,
) -> Result<Result<Answer, Refusal>, AllocError>
    ensures tells_result { TellsFindings res bag.old result }
{
    let findings = take_all(heap, bag, 0)?;
    Ok(res.map(|_| Answer::Found(findings)))
}

// Copies the first places of the list, if it has as many as the line.
fn copy_line(line: &mut [u16], list: &[u16])
    ensures from_list { length line.old ≤ length list.now → line.new ≡ take (length line.old) list.now }
{
    if line.len() <= list.len() {
        line.copy_from_slice(&list[..line.len()]);
    }
}

// The answer of a tick: what it wrote into the first places of the list goes into the line, which has a place for each channel.
fn tick_answer(
    res: Result<u32, Refusal>,
    mut line: Vec<u16>,
    list: &[u16],
) -> Result<Answer, Refusal>
    ensures tells_result { TellsTick (vec_len line) list.now res result }
{
    let clock = res?;
    copy_line(line.as_mut_slice(), list);
    Ok(Answer::Ticked(clock, line))
}

// A reply to a call that was lent no memory.
fn bare(heap: Global, answer: Result<Answer, Refusal>) -> Reply
    ensures nothing_lent { replied result ≡ record { answer = answered answer; scratch = []; list = [] } }
{
    Reply {
        answer,
        scratch: Vec::new(heap),
        list: Vec::new(heap),
    }
}

impl<T: Timetable> Station<T> {
    fn reply_to_close(&mut self, heap: Global, entry: Closure) -> Reply
        ensures does { Does (seen (T.meaning self.old.table) self.old) (CloseCall entry) (replied result) (seen (T.meaning self.new.table) self.new) }
    {
        let result = self.close(entry.channel, entry.slot);
        bare(heap, close_answer(result))
    }

    // The slip is made for the call.
    fn reply_to_reopen(&mut self, heap: Global, mark: u32, entry: Closure) -> Reply
        ensures does { Does (seen (T.meaning self.old.table) self.old) (ReopenCall mark entry) (replied result) (seen (T.meaning self.new.table) self.new) }
    {
        let result = self.reopen(Slip {
            mark,
            entry,
            spent: false,
        });
        bare(heap, reopen_answer(result))
    }

    fn reply_to_check(&mut self, heap: Global, mut scratch: Vec<u32>) -> Reply
        ensures does { Does (seen (T.meaning self.old.table) self.old) (CheckCall scratch) (replied result) (seen (T.meaning self.new.table) self.new) }
    {
        let result = self.check(scratch.as_mut_slice());
        Reply {
            answer: unit_answer(result, Answer::Passed),
            scratch,
            list: Vec::new(heap),
        }
    }

    fn reply_to_findings(
        &self,
        heap: Global,
        mut scratch: Vec<u32>,
        places: usize,
    ) -> Result<Reply, AllocError>
        ensures does { IfOk result (λ reply. Does (seen (T.meaning self.now.table) self.now) (FindingsCall scratch places) (replied reply) (seen (T.meaning self.now.table) self.now)) }
    {
        let mut records = Vec::from_elem(heap, Finding::default(), places)?;
        let mut bag = Bag::over(records.as_mut_slice());
        let result = self.findings(scratch.as_mut_slice(), &mut bag);
        Ok(Reply {
            answer: findings_answer(heap, result, &mut bag)?,
            scratch,
            list: Vec::new(heap),
        })
    }

    fn reply_to_survey(&self, heap: Global, mut scratch: Vec<u32>) -> Reply
        ensures does { Does (seen (T.meaning self.now.table) self.now) (SurveyCall scratch) (replied result) (seen (T.meaning self.now.table) self.now) }
    {
        let result = self.survey(scratch.as_mut_slice());
        Reply {
            answer: survey_answer(result),
            scratch,
            list: Vec::new(heap),
        }
    }

    fn reply_to_air(&mut self, heap: Global) -> Reply
        ensures does { Does (seen (T.meaning self.old.table) self.old) AirCall (replied result) (seen (T.meaning self.new.table) self.new) }
    {
        let result = self.air();
        bare(heap, unit_answer(result, Answer::OnAir))
    }

    fn reply_to_withdraw(&mut self, heap: Global) -> Reply
        ensures does { Does (seen (T.meaning self.old.table) self.old) WithdrawCall (replied result) (seen (T.meaning self.new.table) self.new) }
    {
        let result = self.withdraw();
        bare(heap, unit_answer(result, Answer::Withdrawn))
    }

    // The line that was sent is handed back by itself too.
    fn reply_to_tick(&mut self, heap: Global, mut list: Vec<u16>) -> Result<Reply, AllocError>
        ensures does { MatchResult result (λ reply. Does (seen (T.meaning self.old.table) self.old) (TickCall list) (replied reply) (seen (T.meaning self.new.table) self.new)) (λ _. seen (T.meaning self.new.table) self.new ≡ seen (T.meaning self.old.table) self.old) }
    {
        let line = Vec::from_elem(heap, 0u16, usize::from(self.table.channels()))?;
        let result = self.tick(list.as_mut_slice());
        Ok(Reply {
            answer: tick_answer(result, line, list.as_slice()),
            scratch: Vec::new(heap),
            list,
        })
    }

    // Kept so: calls are values, so that one theorem speaks of every list of them, and here each of them is made.
    // One call, on this station. Without memory for the reply the station stays as it was.
    pub fn perform(&mut self, heap: Global, call: Call) -> Result<Reply, AllocError>
        ensures does_or_stays { MatchResult result (λ reply. Does (seen (T.meaning self.old.table) self.old) call (replied reply) (seen (T.meaning self.new.table) self.new)) (λ _. seen (T.meaning self.new.table) self.new ≡ seen (T.meaning self.old.table) self.old) }
    {
        match call {
            Call::Close(entry) => Ok(self.reply_to_close(heap, entry)),
            Call::Reopen(mark, entry) => Ok(self.reply_to_reopen(heap, mark, entry)),
            Call::Check(scratch) => Ok(self.reply_to_check(heap, scratch)),
            Call::Findings(scratch, places) => self.reply_to_findings(heap, scratch, places),
            Call::Survey(scratch) => Ok(self.reply_to_survey(heap, scratch)),
            Call::Air => Ok(self.reply_to_air(heap)),
            Call::Tick(list) => self.reply_to_tick(heap, list),
            Call::Withdraw => Ok(self.reply_to_withdraw(heap)),
        }
    }

    // Whether it is passed and not yet on air.
    pub fn is_passed(&self) -> bool
        ensures by_phase { result ≡ passed self.now.phase }
    {
        self.phase == Phase::Passed
    }
}
