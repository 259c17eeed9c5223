//! What the publisher of a service shows of itself.
ghost use Rattle.std.specs.Prelude.{◌≡◌, ◌↔◌, IfSome, IsTrue, length};
ghost use Rattle.std.specs.Arc.{arc_value};
ghost use Rattle.prt_published.specs.Line.{line_state};
ghost use Rattle.prt_publisher.specs.declared.phase.Phase.TheVariants.{Ready};

use crate::ServiceBrand;
use crate::publisher_with_followers::PublisherWithFollowers;
use crate::tally::Tally;
use prt_version::Version;
use sqlite::Alter;
use std::sync::Arc;

/// What the publisher of a service shows, all at one moment.
#[derive(Drop)]
pub struct Figures {
    /// How many commands were ever accepted: the number of the published version.
    pub number: u64,
    /// How many rules the published version has.
    pub rules: usize,
    /// The published version; `None` if it has as many owners as can be counted.
    pub version: Option<Arc<Version>>,
    /// How many followers there are.
    pub followers: usize,
    /// Whether commands are taken.
    pub is_open: bool,
    /// What came of the submissions since the service was made.
    pub tally: Tally,
}

/// Copies what a publisher shows.
pub(crate) fn figures_of<S: Alter + Drop, J: ServiceBrand>(
    publisher: &PublisherWithFollowers<S, J>,
) -> Figures
    ensures number { result.number ≡ (line_state publisher.now.line).count }
    ensures rules { result.rules ≡ length (line_state publisher.now.line).rules }
    ensures version { IfSome result.version (λ version. arc_value version ≡ line_state publisher.now.line) }
    ensures open { IsTrue result.is_open ↔ (publisher.now.phase ≡ Ready) }
{
    let published = publisher.published();
    Figures {
        number: published.number(),
        rules: published.rules().len(),
        version: match publisher.share() {
            Ok((version, _known)) => Some(version),
            Err(_) => None,
        },
        followers: publisher.followers(),
        is_open: publisher.is_open(),
        tally: publisher.tally(),
    }
}
