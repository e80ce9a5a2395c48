// What an output server keeps of one input server: told versions, copies and the lease.
ghost use Rattle.std.specs.Prelude.{◌≡◌};
ghost use Rattle.output_server.specs.Hearing.{known_raised};
ghost use Rattle.output_server.specs.Renewing.{renewed as renewed_by, accepts_after};
ghost use Rattle.rules.specs.Output.{sound_copy, hears, hears_all, accepts, takes_copy, takes_lease};

use numbers::{Drift, Epoch, Version};
use rules::{Copied, InRange, Link, Pair, Renewed};

// Something was got, nothing newer is known, and it is no older than the lease's epoch.
pub(crate) fn is_sound(copied: Copied, epoch: Epoch) -> bool
    ensures { result ≡ sound_copy epoch copied }
{
    copied.got != Version::NONE && copied.known <= copied.got && epoch <= copied.epoch
}

// The input server told of a version. One of an object that there is no place for changes nothing.
pub(crate) fn hear(link: &mut Link, pair: Pair)
    ensures { link.new ≡ hears pair link.old }
{
    raise_known(&mut link.copies, pair);
}

fn raise_known(copies: &mut [Copied], pair: Pair)
    ensures { copies.new ≡ known_raised pair copies.old }
{
    let place = usize::from(pair.object);
    if place < copies.len() {
        copies[place].known = copies[place].known.max(pair.version);
    }
}

// The same for each pair of a list, in order.
#[tactic(auto, unfolding(rules::specs::Output::hears_all))]
fn hear_all(link: &mut Link, list: &[Pair])
    ensures { link.new ≡ hears_all list.now link.old }
{
    for pair in list {
        hear(link, *pair);
    }
}

// A renewal answer: first what its list tells of, then its copy, then its lease. Says whether the
// copy was accepted.
pub(crate) fn renew(link: &mut Link, renewed: &InRange<Renewed>, drift: Drift) -> bool
    ensures says { result ≡ accepts_after renewed.now.value link.old }
    ensures after { link.new ≡ renewed_by drift.thousandths renewed.now.value link.old }
{
    hear_all(link, renewed.value.list.as_slice());
    let accepted = take_copy(link, renewed);
    take_lease(link, renewed, drift);
    accepted
}

// An object part is accepted if nothing newer is known. Says whether it was.
fn take_copy(link: &mut Link, renewed: &InRange<Renewed>) -> bool
    ensures says { result ≡ accepts renewed.now.value link.old }
    ensures after { link.new ≡ takes_copy renewed.now.value link.old }
{
    let place = renewed.object().index();
    let copied = link.copies[place];
    let version = renewed.value.version;
    let accepted = renewed.value.renewal.parts.has_object() && copied.known <= version;
    if accepted {
        link.copies[place] = Copied {
            got: version,
            known: version,
            epoch: copied.epoch.max(renewed.value.epoch),
        };
    }
    accepted
}

// A volume part raises the lease's epoch, and its end where a lease was granted.
fn take_lease(link: &mut Link, renewed: &InRange<Renewed>, drift: Drift)
    ensures { link.new ≡ takes_lease drift.thousandths renewed.now.value link.old }
{
    if renewed.value.renewal.parts.has_volume() {
        link.epoch = link.epoch.max(renewed.value.epoch);
        let length = renewed.length();
        if length.micros() > 0 {
            let end = renewed.stamp().lease_end(length, drift);
            link.lease_end = link.lease_end.max(end);
        }
    }
}
