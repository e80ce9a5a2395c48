// Versions of objects in words.
ghost use Rattle.std.specs.Prelude.{Some};
ghost use Rattle.wording.specs.Words.{version_text, versions_text};

use rules::{Pair, Pairs};
use std::fmt;

// One version of an object.
#[derive(Clone, Copy)]
pub(crate) struct VersionOf(pub(crate) Pair);

impl fmt::Display for VersionOf {
    ghost output = { λ v. Some (version_text v.0) };

    #[tactic(auto, unfolding(crate::specs::Words::version_text))]
    fn fmt<W: fmt::Write>(&self, f: &mut fmt::Formatter<W>) -> fmt::Result {
        let object = self.0.object;
        let version = self.0.version;
        write!(f, "version {version} of object {object}")
    }
}

// A list of them, which may be empty.
#[derive(Clone, Copy)]
pub(crate) struct Versions(pub(crate) Pairs);

impl fmt::Display for Versions {
    ghost output = { λ l. Some (versions_text l.0) };

    #[tactic(auto, unfolding(crate::specs::Words::versions_text))]
    fn fmt<W: fmt::Write>(&self, f: &mut fmt::Formatter<W>) -> fmt::Result {
        match self.0.as_slice() {
            [] => f.write_str("nothing"),
            [first, rest @ ..] => {
                let first = VersionOf(*first);
                write!(f, "{first}")?;
                for pair in rest {
                    let next = VersionOf(*pair);
                    write!(f, ", {next}")?;
                }
                Ok(())
            }
        }
    }
}
