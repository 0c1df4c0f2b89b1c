// What the answers of a run say of a plan, line by line.
ghost use Rattle.std.specs.Prelude.{◌≡◌, ◌++◌, map, IfOk, OnOk};
ghost use Rattle.std.specs.Option.{option_to_list};
ghost use Rattle.judging.specs.Judgements.{miss};
ghost use Rattle.judging.specs.Telling.{told_lines, refused_lines, all_lines};
ghost use Rattle.runs.specs.Rehearsals.{told_of};
ghost use Rattle.station.specs.Calls.{answered};
ghost use Rattle.station.specs.States.{told};
ghost use Rattle.station.specs.declared.refusal.Refusal.TheVariants.{Checking as CheckRefused, Surveying as SurveyRefused};

use bag::finding::Finding;
use checker::refusal::CheckRefusal;
use line::Line;
use station::call::{Answer, Reply};
use station::refusal::Refusal;
use std::alloc::{AllocError, Global};
use survey::refusal::SurveyRefusal;

// A line for each finding.
fn note_findings(lines: &mut Vec<Line>, findings: &[Finding]) -> Result<(), AllocError>
    ensures misses { OnOk result (lines.new.items ≡ lines.old.items ++ map miss findings.now) }
{
    lines.extend(
        findings
            .iter()
            .map(|finding| Line::Miss(finding.page, finding.slot)),
    )
}

fn check_line(refusal: CheckRefusal) -> Option<Line>
    ensures of_check { option_to_list result ≡ refused_lines (told (CheckRefused refusal)) }
{
    match refusal {
        CheckRefusal::Strays(stray) => Some(Line::Stray(stray.slot, stray.channel, stray.page)),
        CheckRefusal::Starves(finding) => Some(Line::Starved(finding.page, finding.slot)),
        _ => None,
    }
}

fn survey_line(refusal: SurveyRefusal) -> Option<Line>
    ensures of_survey { option_to_list result ≡ refused_lines (told (SurveyRefused refusal)) }
{
    match refusal {
        SurveyRefusal::LongPeriod => Some(Line::LongStock),
        SurveyRefusal::ShortScratch => None,
    }
}

// What a refusal says, if it says anything of the plan.
fn refusal_line(refusal: Refusal) -> Option<Line>
    ensures of_refusal { option_to_list result ≡ refused_lines (told refusal) }
{
    match refusal {
        Refusal::Checking(refusal) => check_line(refusal),
        Refusal::Surveying(refusal) => survey_line(refusal),
        _ => None,
    }
}

// What an answer says, after what was said.
fn note_answer(lines: &mut Vec<Line>, answer: &Result<Answer, Refusal>) -> Result<(), AllocError>
    ensures says_answer { OnOk result (lines.new.items ≡ lines.old.items ++ told_lines (answered answer.now)) }
{
    match answer {
        Ok(Answer::Passed) => Ok(lines.push(Line::Pass)?),
        Ok(Answer::Found(findings)) => note_findings(lines, findings.as_slice()),
        Ok(Answer::Surveyed(peak, slot)) => Ok(lines.push(Line::Stock(*peak, *slot))?),
        Ok(_) => Ok(()),
        Err(refusal) => {
            if let Some(line) = refusal_line(*refusal) {
                lines.push(line)?;
            }
            Ok(())
        }
    }
}

// What all answers say, in order.
pub(crate) fn lines_of(heap: Global, replies: &[Reply]) -> Result<Vec<Line>, AllocError>
    ensures says_all { IfOk result (λ v. v.items ≡ all_lines (told_of replies.now)) }
{
    let mut lines = Vec::new(heap);
    for reply in replies {
        note_answer(&mut lines, &reply.answer)?;
    }
    Ok(lines)
}
