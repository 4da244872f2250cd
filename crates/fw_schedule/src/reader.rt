//! The reader of schedules.
ghost use Rattle.std.specs.Prelude.{◌≡◌, ◌⊎◌, ◌+◌, ◌≤◌, ◌++◌, ◌∷◌, [], ℕ, List, IfOk, OnOk, IfErr, OnErr, MatchResult};
ghost use Rattle.std.specs.List.{AllByRecursion};
ghost use Rattle.fw_flow.specs.Dataflow.{Dataflow};
ghost use Rattle.fw_lines.specs.declared.refusal.Refusal.{Refusal};
ghost use Rattle.fw_lines.specs.Faults.{IfRefused};
ghost use Rattle.fw_lines.specs.Lines.{words_at, said_in};
ghost use Rattle.fw_schedule.specs.declared.item.Item.{Item};
ghost use Rattle.fw_schedule.specs.Grammar as spec;
ghost use Rattle.fw_schedule.specs.Grammar.{schedule_words_fault, items_of, within_limit, IsAcceptedSchedule, IsRefusedSchedule};
ghost use Rattle.fw_schedule.specs.Schedule.{IsItemOf, step_count, step_limit};

use crate::item::Item;
use crate::schedule::Schedule;
use crate::step::{is_word, step_of};
use fw_flow::Flow;
use fw_lines::{Code, Line, Number, Place, ReadFault, Refusal, Span, line_at, number};
use std::alloc::{AllocError, Global};

/// The most bytes that a schedule may have.
pub const SCHEDULE_LIMIT: usize = 16_777_216;

/// Reads a schedule: the steps of a run of this flow, one by one or so many of those that are enabled.
///
/// It takes the memory of the items and of the words of one line. Where no memory is refused it
/// answers `Ok` exactly for the texts of the grammar, and else the first rule that is broken.
pub fn read_schedule(alloc: Global, text: &[u8], flow: &Flow) -> Result<Schedule, ReadFault>
    ensures answer { MatchResult result (IsAcceptedSchedule text.now flow.now)
        (IfRefused (IsRefusedSchedule text.now flow.now)) }
    ensures items { IfOk result (AllByRecursion (IsItemOf flow.now)) }
    ensures count { IfOk result (λ items. step_count items ≤ step_limit) }
{
    if text.len() > SCHEDULE_LIMIT {
        return Err(ReadFault::of_whole(Code::S4));
    }
    let mut items = Schedule::new(alloc);
    let mut count = 0;
    let mut place = Some(Place::START);
    while let Some(at) = place {
        let (line, next) = line_at(alloc, text, at)?;
        count = read_line(alloc, text, &line, flow, count, &mut items)?;
        place = next;
    }
    Ok(items)
}

/// Each text is accepted or refused, and not both; an accepted one spells one list of items, and one that is refused is by one
/// rule at one line: so `read_schedule` answers `Ok` exactly for the texts of the grammar, and else that refusal, unless
/// memory is refused.
pub fn one_answer()
    ensures some_answer { (text : List ℕ) (flow : Dataflow) → ((items : List Item) × IsAcceptedSchedule text flow items)
        ⊎ ((refusal : Refusal) × IsRefusedSchedule text flow refusal) }
    ensures exclusive { (text : List ℕ) (flow : Dataflow) (items : List Item) (refusal : Refusal)
        → IsAcceptedSchedule text flow items → IsRefusedSchedule text flow refusal → ⊥ }
    ensures one_value { (text : List ℕ) (flow : Dataflow) (first second : List Item)
        → IsAcceptedSchedule text flow first → IsAcceptedSchedule text flow second → first ≡ second }
    ensures one_refusal { (text : List ℕ) (flow : Dataflow) (first second : Refusal)
        → IsRefusedSchedule text flow first → IsRefusedSchedule text flow second → first ≡ second }
{}

// Adds what a line asks for behind so many steps, and answers how many they are with its own; or tells the rule that it
// breaks.
fn read_line(
    alloc: Global,
    text: &[u8],
    line: &Line,
    flow: &Flow,
    count: u64,
    items: &mut Schedule,
) -> Result<u64, ReadFault>
    requires { count ≤ step_limit }
    ensures sound { OnOk result (schedule_words_fault flow.now count (words_at text.now line.now.words) ≡ None) }
    ensures value { OnOk result
        (items.new ≡ items.old ++ items_of flow.now (said_in text.now line.now ∷ [])) }
    ensures total { IfOk result (λ after. after
        ≡ count + step_count (items_of flow.now (said_in text.now line.now ∷ []))) }
    ensures few { IfOk result (λ after. after ≤ step_limit) }
    ensures broken { IfErr result (IfRefused (λ refusal.
        (schedule_words_fault flow.now count (words_at text.now line.now.words) ≡ Some refusal.code)
        × (refusal.line ≡ line.now.number))) }
    ensures err { OnErr result (items.new ≡ items.old) }
{
    let words = line.words.as_slice();
    if words.is_empty() {
        return Ok(count);
    }
    match item_of(alloc, text, words, flow, count)? {
        Ok(item) => {
            let after = count + item.steps();
            items.push(item)?;
            Ok(after)
        }
        Err(code) => Err(ReadFault::Refused(Refusal {
            code,
            line: line.number,
        })),
    }
}

// What words ask for behind so many steps, or the first rule that they break.
fn item_of(
    alloc: Global,
    text: &[u8],
    words: &[Span],
    flow: &Flow,
    count: u64,
) -> Result<Result<Item, Code>, AllocError>
    requires { count ≤ step_limit }
    ensures { IfOk result (λ item.
        item ≡ within_limit count (spec.item_of flow.now (words_at text.now words.now))) }
{
    let [verb, operands @ ..] = words else {
        return Ok(Err(Code::S1));
    };
    if is_word(verb.of(text), b"auto") {
        return Ok(auto_of(text, operands, count));
    }
    match step_of(alloc, text, verb.of(text), operands, flow)? {
        Ok(step) => Ok(Item::One(step).after(count)),
        Err(code) => Ok(Err(code)),
    }
}

// What `auto` and these words ask for behind so many steps, or the rule that they break.
fn auto_of(text: &[u8], words: &[Span], count: u64) -> Result<Item, Code>
    requires { count ≤ step_limit }
    ensures { result ≡ within_limit count (spec.auto_of (words_at text.now words.now)) }
{
    match words {
        [word] => auto_of_word(word.of(text), count),
        _ => Err(Code::S1),
    }
}

// What `auto` and this word ask for behind so many steps, or the rule that they break.
#[tactic(auto, unfolding(fw_lines::specs::Spelling::number_of))]
fn auto_of_word(word: &[u8], count: u64) -> Result<Item, Code>
    requires { count ≤ step_limit }
    ensures { result ≡ within_limit count (spec.auto_of (word.now ∷ [])) }
{
    match number(word) {
        Number::Value(most) => Item::Auto(most).after(count),
        Number::TooLarge => Err(Code::S4),
        Number::NotANumber => Err(Code::S1),
    }
}
