// A set in words: the numbers of its members.
ghost use Rattle.std.specs.Prelude.{ℕ, List, Some};
ghost use Rattle.std.specs.Fmt.{WritesOnOk};
ghost use Rattle.std.specs.Iterator.{AlwaysYields, IsFinite};
ghost use Rattle.quorum.specs.Words.{all_numbers_text, set_text};

use crate::member_set::MemberSet;
use std::fmt;

/// The numbers in a set, rising, as `0, 1, 63`. The empty set is `nobody`.
impl fmt::Display for MemberSet {
    ghost output = { λ s. Some (set_text s.0) };

    fn fmt<W: fmt::Write>(&self, f: &mut fmt::Formatter<W>) -> fmt::Result {
        tell_numbers(f, (0..64).filter(|number| self.contains(*number)))
    }
}

// Numbers in their order, with a comma before each but the first; nobody where there are none.
// Not in `fmt` itself: in a generic function the check takes no invariant of a loop over a chain
// whose closure stands there too.
fn tell_numbers<W: fmt::Write, I: Iterator<Item = u8> + Drop>(
    f: &mut fmt::Formatter<W>,
    mut numbers: I,
) -> fmt::Result
    requires begins { I.can_next numbers }
    requires ends { IsFinite (I.remaining numbers) }
    ensures { (ns : List ℕ) → AlwaysYields I.next_gives (λ n. n) numbers ns
        → WritesOnOk W.write_str_gives f.old result (all_numbers_text ns) f.new }
{
    let Some(first) = numbers.next() else {
        return f.write_str("nobody");
    };
    write!(f, "{first}")?;
    for number in numbers {
        write!(f, ", {number}")?;
    }
    Ok(())
}
