ghost use Rattle.std.specs.Prelude.{◌≡◌, ℕ, false, slice_index, slice_index_or};
ghost use Rattle.traces.specs.Clashes.{holds, meet};
ghost use Rattle.headways.specs.Sections.{sections_of, release_of, released_on, section_gap};

use entries::memory::Step;

// A section is any byte.
const SECTIONS: usize = 256;

// For each section, whether one of the steps is over it. One table of latest releases for both questions would make this
// one cost three times as much.
fn marked_sections(steps: &[Step]) -> [bool; SECTIONS]
    ensures { (s : ℕ) → slice_index_or result s false ≡ holds (sections_of steps.now) s }
{
    let mut marked = [false; SECTIONS];
    for step in steps {
        marked[usize::from(step.section)] = true;
    }
    marked
}

// Whether two movements have a section in common, by their steps. A loop: as `any` the question costs 4 to 6 % more.
pub fn share_section(first: &[Step], second: &[Step]) -> bool
    ensures { result ≡ meet (sections_of first.now) (sections_of second.now) }
{
    let marked = marked_sections(first);
    for step in second {
        if marked[usize::from(step.section)] {
            return true;
        }
    }
    false
}

// From a run's start, the seconds until one of its movement's steps is released.
fn release(step: &Step) -> u16
    ensures { result ≡ release_of step.now }
{
    step.release
}

// For each section, the latest release of the steps over it; 0 where there is none.
fn latest_releases(steps: &[Step]) -> [u16; SECTIONS]
    ensures { (s : ℕ) → slice_index result s ≡ released_on steps.now s }
{
    let mut released = [0; SECTIONS];
    for step in steps {
        let section = usize::from(step.section);
        released[section] = released[section].max(release(step));
    }
    released
}

// The greatest, over all sections that two movements share, of the first's release less the second's set.
pub fn section_gap(first: &[Step], second: &[Step]) -> u16
    ensures { result ≡ section_gap first.now second.now }
{
    let released = latest_releases(first);
    second.iter().fold(0u16, |gap, step| {
        gap.max(released[usize::from(step.section)].saturating_sub(step.set))
    })
}
