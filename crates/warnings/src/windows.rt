// The windows of a line in which it drifts.
ghost use Rattle.std.specs.Prelude.{◌≡◌, ◌+◌, ◌<◌, ◌≤◌, length, set};
ghost use Rattle.std.specs.List.{list_all};
ghost use Rattle.warnings.specs.Drift.{fifth, is_large, is_above, is_below, drifts, begins, firsts_from, drift_of};

use super::Drift;
use adjust::Section;
use adjust::terms::Root;
use roots::limits::within;
use rules::refusals::counted_length;

// A fifth of a limit of D. The left sides of the table of classes are at most 625.
fn fifth(limit: Root) -> Root
    requires { limit.a ≤ 625 }
    ensures { result ≡ fifth limit }
{
    Root {
        a: 25 * limit.a,
        b: limit.b,
    }
}

// Whether D exceeds a fifth of its limit.
fn is_large(apart: Root, x: &Section) -> bool
    requires { apart.a ≤ 625 }
    ensures { result ≡ is_large apart x.now }
{
    let root = fifth(apart);
    !within(root.a, x.discrepancy, root.b, counted_length(x.distance))
}

// Whether each D does. Apart from the tests of the signs, since in one body the tactics do not join what several `all` answer.
fn all_large(apart: Root, window: &[Section]) -> bool
    requires { apart.a ≤ 625 }
    ensures { result ≡ list_all (is_large apart) window.now }
{
    window.iter().all(|x| is_large(apart, x))
}

fn all_above(window: &[Section]) -> bool
    ensures { result ≡ list_all is_above window.now }
{
    window.iter().all(|x| 0 < x.discrepancy)
}

fn all_below(window: &[Section]) -> bool
    ensures { result ≡ list_all is_below window.now }
{
    window.iter().all(|x| x.discrepancy < 0)
}

// Whether all D have one sign and exceed a fifth of the limit.
fn drifts(apart: Root, window: &[Section]) -> bool
    requires { apart.a ≤ 625 }
    ensures { result ≡ drifts apart window.now }
{
    all_large(apart, window) && (all_above(window) || all_below(window))
}

// Whether such a window of so many sections begins with the first of these.
fn begins(apart: Root, window: usize, sections: &[Section]) -> bool
    requires { apart.a ≤ 625 }
    ensures { result ≡ begins apart window sections.now }
{
    window <= sections.len() && drifts(apart, &sections[..window])
}

impl Drift {
    // One number more.
    fn add(&mut self, number: usize)
        requires { self.old.count < length self.old.firsts }
        ensures { self.new ≡ record { count = self.old.count + 1; firsts = set self.old.firsts self.old.count number } }
    {
        self.firsts[self.count] = number;
        self.count += 1;
    }
}

// The first sections of all such windows.
pub(crate) fn find(apart: Root, window: usize, sections: &[Section]) -> Drift
    requires { (apart.a ≤ 625) × ((3 ≤ window) × (length sections.now ≤ 64)) }
    ensures { result ≡ drift_of (firsts_from apart window 1 sections.now) }
{
    let mut drift = Drift {
        count: 0,
        firsts: [0; 62],
    };
    for k in 0..sections.len() {
        if begins(apart, window, &sections[k..]) {
            drift.add(k + 1);
        }
    }
    drift
}
