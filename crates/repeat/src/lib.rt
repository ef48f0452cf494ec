// A run shot again: whether the new run stands, or its mean with the old one, or the opposite run is due.
#![tactic(auto)]

ghost use Rattle.std.specs.Prelude.{◌≡◌, ◌≤◌, ◌||◌, [], Some, None, cond, pos, nat_abs, IfOk};
ghost use Rattle.numbers.specs.Numbers.{eq_z};
ghost use Rattle.records.specs.Refusals.{number_of};
ghost use Rattle.repeat.specs.Repeat.{class_of, opposite_in_range, near, doubled, chosen, judged, can_judge, judge_refusal, judgement, judgement_of, Judges, standing, judgement_number};

use adjust::terms::{Class, Root};
use reading::read_run;
use records::Refusal;
use roots::limits::within;
use rules::opening::instrument_named;
use rules::refusals::counted_length;
use station::Instrument;

pub mod entry;
mod reading;
pub mod words;

// What is to be done after a run was shot again.
#[derive(Clone, Copy, PartialEq, Eq)]
pub enum Judgement {
    // the new run stands
    New,
    // the mean of the old run and the new one stands
    Mean,
    // the opposite run is due
    Opposite,
}

impl Judgement {
    pub fn number(self) -> u8
        ensures { result ≡ judgement_number self }
    {
        match self {
            Judgement::New => 1,
            Judgement::Mean => 2,
            Judgement::Opposite => 3,
        }
    }

    // The lines of the run that stands, a part of one of the two texts and no copy of it.
    pub fn lines<'a>(self, first: &'a [u8], second: &'a [u8]) -> &'a [u8]
        ensures lines { result.now ≡ standing self first.now second.now [] }
        ensures uncopied { result.ref_ptr ≡ standing self first.entry.ref_ptr second.entry.ref_ptr first.entry.ref_ptr }
    {
        match self {
            Judgement::New => second,
            Judgement::Mean => first,
            Judgement::Opposite => &first[..0],
        }
    }
}

// The class whose runs are judged: third order, 3, or a spur, 4.
fn class_named(order: i64) -> Option<Class>
    ensures { result ≡ cond (eq_z order (pos 3) || eq_z order (pos 4)) (Some (class_of order)) None }
{
    match order {
        3 => Some(Class::Third),
        4 => Some(Class::Spur),
        _ => None,
    }
}

fn opposite_in_range(g: i64, s: i64) -> bool
    ensures { result ≡ opposite_in_range g s }
{
    g.unsigned_abs() <= 1250000 && (8..=600000).contains(&s)
}

// Whether a discrepancy is within the root of R.
fn is_near(root: Root, r: i64, d: i64) -> bool
    ensures { result ≡ near root r d }
{
    within(root.a, d, root.b, counted_length(r))
}

// The root for twice a discrepancy.
fn doubled(root: Root) -> Root
    requires { root.b ≤ 18 }
    ensures { result ≡ doubled root }
{
    Root {
        a: root.a,
        b: 4 * root.b,
    }
}

// By three comparisons: the new run against the old one, their mean and the new run against the opposite one.
fn chosen(old: bool, mean: bool, opposite: bool) -> Judgement
    ensures { result ≡ chosen old mean opposite }
{
    if old && mean {
        Judgement::Mean
    } else if opposite {
        Judgement::New
    } else {
        Judgement::Opposite
    }
}

// By G of each run; R is that of the section's first two.
fn judged(root: Root, r: i64, old: i64, new: i64, opposite: i64) -> Judgement
    requires root { root.b ≤ 18 }
    requires old { nat_abs old ≤ 25000000 }
    requires new { nat_abs new ≤ 25000000 }
    requires opposite { nat_abs opposite ≤ 1250000 }
    ensures { result ≡ judged root r old new opposite }
{
    let against_old = is_near(root, r, new - old);
    let mean = is_near(doubled(root), r, old + new + 2 * opposite);
    let against_opposite = is_near(root, r, new + opposite);
    chosen(against_old, mean, against_opposite)
}

// Of the two texts, by a class and an instrument.
fn judge_by(
    class: Class,
    instrument: Instrument,
    first: &[u8],
    second: &[u8],
    g: i64,
    s: i64,
) -> Result<Judgement, Refusal>
    ensures number { number_of result ≡ cond (can_judge class instrument first.now second.now g s) 0 52 }
    ensures given { IfOk result (λ j. j ≡ judgement class instrument first.now second.now g s) }
{
    let old = read_run(first, class, instrument)?;
    let new = read_run(second, class, instrument)?;
    if !opposite_in_range(g, s) {
        return Err(Refusal::RepeatedRun);
    }
    let r = old.sights + s;
    Ok(judged(class.terms().apart, r, old.height, new.height, g))
}

// Of the old run and the new one, as texts of STA lines; of third order, 3, or of a spur, 4; by an instrument, as LIN has it; with G and s of the opposite run.
pub fn judge(
    first: &[u8],
    second: &[u8],
    order: i64,
    instrument: i64,
    g: i64,
    s: i64,
) -> Result<Judgement, Refusal>
    ensures { Judges first.now second.now order instrument g s result }
{
    match (class_named(order), instrument_named(instrument)) {
        (Some(class), Some(instrument)) => judge_by(class, instrument, first, second, g, s),
        _ => Err(Refusal::OrderOrInstrument),
    }
}

// The lines of the run that stands.
pub fn standing_lines<'a>(
    first: &'a [u8],
    second: &'a [u8],
    order: i64,
    instrument: i64,
    g: i64,
    s: i64,
) -> Result<&'a [u8], Refusal>
    ensures number { number_of result ≡ judge_refusal first.now second.now order instrument g s }
    ensures lines { IfOk result (λ r. r.now ≡ standing (judgement_of first.now second.now order instrument g s) first.now second.now []) }
    ensures uncopied { IfOk result (λ r. r.ref_ptr ≡ standing (judgement_of first.now second.now order instrument g s) first.entry.ref_ptr second.entry.ref_ptr first.entry.ref_ptr) }
{
    let judgement = judge(first, second, order, instrument, g, s)?;
    Ok(judgement.lines(first, second))
}
