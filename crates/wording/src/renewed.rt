// A renewal in words: what is asked for, and what comes.
ghost use Rattle.std.specs.Prelude.{Some};
ghost use Rattle.std.specs.Fmt.{WritesOnOk};
ghost use Rattle.wording.specs.Words.{wanted_text, copy_text, lease_text, news_text, brought_text};

use crate::versions::{VersionOf, Versions};
use rules::{Pair, Parts, Renewal, Renewed};
use std::fmt;

// What a renewal request asks for.
#[derive(Clone, Copy)]
pub(crate) struct Wanted(pub(crate) Renewal);

impl fmt::Display for Wanted {
    ghost output = { λ w. Some (wanted_text w.0) };

    fn fmt<W: fmt::Write>(&self, f: &mut fmt::Formatter<W>) -> fmt::Result {
        let object = self.0.object;
        match self.0.parts {
            Parts::Object => write!(f, "object {object}"),
            Parts::Volume => f.write_str("a lease"),
            Parts::Both => write!(f, "object {object} and a lease"),
        }
    }
}

// What a renewal answer brings.
#[derive(Clone, Copy)]
pub(crate) struct Brought(pub(crate) Renewed);

impl Brought {
    #[tactic(auto, unfolding(crate::specs::Words::version_text))]
    fn tell_copy<W: fmt::Write>(&self, f: &mut fmt::Formatter<W>) -> fmt::Result
        ensures { WritesOnOk W.write_str_gives f.old result (copy_text self.now.0) f.new }
    {
        if !self.0.renewal.parts.has_object() {
            return Ok(());
        }
        let copy = VersionOf(Pair {
            object: self.0.renewal.object,
            version: self.0.version,
        });
        let value = self.0.value;
        write!(f, ", {copy} with value {value}")
    }

    fn tell_lease<W: fmt::Write>(&self, f: &mut fmt::Formatter<W>) -> fmt::Result
        ensures { WritesOnOk W.write_str_gives f.old result (lease_text self.now.0) f.new }
    {
        if !self.0.renewal.parts.has_volume() {
            return Ok(());
        }
        let length = self.0.length;
        let stamp = self.0.renewal.stamp;
        write!(f, ", a lease of {length} from {stamp}")
    }

    fn tell_news<W: fmt::Write>(&self, f: &mut fmt::Formatter<W>) -> fmt::Result
        ensures { WritesOnOk W.write_str_gives f.old result (news_text self.now.0.list) f.new }
    {
        if self.0.list.as_slice().is_empty() {
            return Ok(());
        }
        let list = Versions(self.0.list);
        write!(f, ", news of {list}")
    }
}

impl fmt::Display for Brought {
    ghost output = { λ b. Some (brought_text b.0) };

    #[tactic(auto, unfolding(crate::specs::Words::brought_text))]
    fn fmt<W: fmt::Write>(&self, f: &mut fmt::Formatter<W>) -> fmt::Result {
        let epoch = self.0.epoch;
        write!(f, "epoch {epoch}")?;
        self.tell_copy(f)?;
        self.tell_lease(f)?;
        self.tell_news(f)
    }
}
