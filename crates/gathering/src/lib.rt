// Texts gathered one after another in the first places of a list.
#![tactic(auto)]

ghost use Rattle.std.specs.Prelude.{drop};
ghost use Rattle.gathering.specs.Gathering.{Appended};

// What stands in `from` from the place `at` on, put after the first n places of a list: how many are taken then. Where there is no room for
// it nothing is written, and n are taken as before.
pub fn append(list: &mut [u8], n: usize, from: &[u8], at: usize) -> usize
    ensures { Appended (drop at from.now) list.old n result list.new }
{
    let Some(text) = from.get(at..) else {
        return n;
    };
    if list.len() < n || list.len() - n < text.len() {
        return n;
    }
    let end = n + text.len();
    list[n..end].copy_from_slice(text);
    end
}
