// The judgement of a run shot again.
ghost use Rattle.std.specs.Prelude.{◌≡◌};
ghost use Rattle.repeat.specs.Repeat.{judge_refusal, judgement_after};

// Of the texts of the old run and of the new one; the answer is the documents' number. The judgement goes into `judgement`: 1 the new run stands, 2 the mean, 3 the opposite run is due.
#[unsafe(no_mangle)]
pub extern "C" fn level_judge(
    first: &[u8],
    second: &[u8],
    order: i64,
    instrument: i64,
    g: i64,
    s: i64,
    judgement: &mut u8,
) -> u8
    ensures value { result ≡ judge_refusal first.now second.now order instrument g s }
    ensures judgement_after { judgement.new ≡ judgement_after first.now second.now order instrument g s judgement.old }
{
    repeat::entry::level_judge(first, second, order, instrument, g, s, judgement)
}
