// Messages in words of this story's own: what it prints is kept, and there is one server of each
// kind.
use quorum::MemberSet;
use rules::{Message, Pairs, Parts, Renewed};
use std::fmt;

// A message, as it is told to a reader.
#[derive(Clone, Copy)]
pub(crate) struct Words<'a>(pub(crate) &'a Message);

// The versions that a list tells of.
#[derive(Clone, Copy)]
pub(crate) struct Versions(pub(crate) Pairs);

fn parts_in_words(parts: Parts) -> &'static str {
    match parts {
        Parts::Object => "the object",
        Parts::Volume => "a lease",
        Parts::Both => "the object and a lease",
    }
}

fn shut_out_in_words(set: MemberSet) -> &'static str {
    if set.contains(0) {
        "names the output server as shut out"
    } else {
        "names nobody as shut out"
    }
}

impl fmt::Display for Versions {
    fn fmt<W: fmt::Write>(&self, f: &mut fmt::Formatter<W>) -> fmt::Result {
        f.write_str("version")?;
        for pair in self.0.as_slice() {
            let version = pair.version;
            write!(f, " {version}")?;
        }
        Ok(())
    }
}

// What a renewal answer brings.
#[derive(Clone, Copy)]
struct Brought(Renewed);

impl fmt::Display for Brought {
    fn fmt<W: fmt::Write>(&self, f: &mut fmt::Formatter<W>) -> fmt::Result {
        let epoch = self.0.epoch;
        write!(f, "answers epoch {epoch}")?;
        if self.0.renewal.parts.has_object() {
            let version = self.0.version;
            let value = self.0.value;
            write!(f, ", version {version}, value {value}")?;
        }
        if self.0.renewal.parts.has_volume() {
            let length = self.0.length;
            let stamp = self.0.renewal.stamp;
            write!(f, ", a lease of {length} from {stamp}")?;
        }
        if self.0.list.len() > 0 {
            let versions = Versions(self.0.list);
            write!(f, ", still to tell {versions}")?;
        }
        Ok(())
    }
}

impl<'a> fmt::Display for Words<'a> {
    fn fmt<W: fmt::Write>(&self, f: &mut fmt::Formatter<W>) -> fmt::Result {
        match self.0 {
            Message::ReadAnswer { version, value, .. } => {
                write!(f, "answers version {version}, value {value}")
            }
            Message::RenewalRequest { renewal, .. } => {
                let parts = parts_in_words(renewal.parts);
                let stamp = renewal.stamp;
                write!(f, "asks for {parts}, stamped {stamp}")
            }
            Message::RenewalAnswer { renewed, .. } => write!(f, "{}", Brought(*renewed)),
            Message::Invalidation { version, .. } => {
                write!(f, "tells the output server of version {version}")
            }
            Message::WriteAnswer { shut_out, .. } => f.write_str(shut_out_in_words(*shut_out)),
            Message::InvalidationAnswer { list, .. } => {
                let versions = Versions(*list);
                write!(f, "acknowledges {versions}")
            }
            // kinds that this story does not have
            _ => f.write_str("says something else"),
        }
    }
}
