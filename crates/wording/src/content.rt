// What a message says, as the end of a sentence about it.
ghost use Rattle.std.specs.Prelude.{Some};
ghost use Rattle.wording.specs.Sentences.{content_text};

use crate::renewed::{Brought, Wanted};
use crate::versions::{VersionOf, Versions};
use rules::{Message, Pair};
use std::fmt;

#[derive(Clone, Copy)]
pub(crate) struct Content<'a>(pub(crate) &'a Message);

impl<'a> fmt::Display for Content<'a> {
    ghost output = { λ c. Some (content_text c.0.now) };

    fn fmt<W: fmt::Write>(&self, f: &mut fmt::Formatter<W>) -> fmt::Result {
        match *self.0 {
            Message::ClockQuestion { .. } => f.write_str(" for its clock"),
            Message::ClockAnswer { clock, .. } => write!(f, ": clock {clock}"),
            Message::WriteRequest {
                object,
                version,
                value,
                ..
            } => {
                let held = VersionOf(Pair { object, version });
                write!(f, " to hold {held}, value {value}")
            }
            Message::WriteAnswer { shut_out, .. } => {
                write!(f, " and names as shut out: {shut_out}")
            }
            Message::ReadRequest { object, .. } => write!(f, " for object {object}"),
            Message::ReadAnswer { version, value, .. } => {
                write!(f, ": version {version}, value {value}")
            }
            Message::RenewalRequest { renewal, .. } => {
                let wanted = Wanted(renewal);
                let stamp = renewal.stamp;
                write!(f, " for {wanted}, stamped {stamp}")
            }
            Message::RenewalAnswer { renewed, .. } => write!(f, ": {}", Brought(renewed)),
            Message::Invalidation {
                object,
                version,
                ..
            } => {
                let told = VersionOf(Pair { object, version });
                write!(f, " of {told}")
            }
            Message::InvalidationAnswer { list, .. } => {
                write!(f, " that it knows {}", Versions(list))
            }
        }
    }
}
