// The judgement in the form in which it is exported.
ghost use Rattle.std.specs.Prelude.{◌≡◌};
ghost use Rattle.repeat.specs.Repeat.{judge_refusal, judgement_after};

use super::judge;

// The documents' number. The judgement goes into a lent place: 1 the new run stands, 2 the mean, 3 the opposite run is due.
pub fn level_judge(
    first: &[u8],
    second: &[u8],
    order: i64,
    instrument: i64,
    g: i64,
    s: i64,
    judgement: &mut u8,
) -> u8
    ensures value { result ≡ judge_refusal first.now second.now order instrument g s }
    ensures judgement_after { judgement.new ≡ judgement_after first.now second.now order instrument g s judgement.old }
{
    match judge(first, second, order, instrument, g, s) {
        Ok(judged) => {
            *judgement = judged.number();
            0
        }
        Err(refusal) => refusal.number(),
    }
}
