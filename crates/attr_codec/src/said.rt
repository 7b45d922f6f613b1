//! What the attributes of a field give, each by itself, and together.

ghost use Rattle.std.specs.Prelude.{◌≡◌, ◌==◌, [], Bool, IfOk, OnOk};
ghost use Rattle.bgp_types.specs.Faults.{own_fault};
ghost use Rattle.bgp_types.specs.Merge.{is_stale, merged_aggregator, path_with};
ghost use Rattle.bgp_types.specs.Rising.{in_rising as rising};
ghost use Rattle.bgp_types.specs.Values.{other_kind};
ghost use Rattle.attr_codec.specs.Decoding.{PassesOrStops};
ghost use Rattle.attr_codec.specs.Pieces.{wire, IsPiece};
ghost use Rattle.attr_codec.specs.Saying.{attributes_said, with_attr, found_of, with_kept};

use crate::fault::CodecFault;
use crate::merge::merged;
use crate::piece::Piece;
use bgp_types::kinds::{
    AGGREGATOR, AS_PATH, AS4_AGGREGATOR, AS4_PATH, ATOMIC_AGGREGATE, LOCAL_PREF, MULTI_EXIT_DISC,
    NEXT_HOP, ORIGIN,
};
use bgp_types::{AS_TRANS, Aggregator, AsPath, FoundAttrs, NoMemory, Origin, RawAttr, RawAttrs};
use std::alloc::Global;

/// What the attributes of a field give, each by itself. In a wide UPDATE no AS4 attribute counts. The
/// unknown attributes that are kept stand in their order.
#[derive(Debug, Drop)]
pub struct Said {
    pub origin: Option<Origin>,
    pub path: Option<AsPath>,
    pub next_hop: Option<u32>,
    pub med: Option<u32>,
    pub atomic: bool,
    pub aggregator: Option<Aggregator>,
    pub as4_path: Option<AsPath>,
    pub as4_aggregator: Option<Aggregator>,
    pub unknown: RawAttrs,
}

/// Appends an attribute, if there is one.
fn keep(unknown: &mut RawAttrs, attr: Option<RawAttr>) -> Result<(), NoMemory>
    ensures { OnOk result (unknown.new ≡ with_kept attr unknown.old) }
{
    match attr {
        Some(attr) => unknown.push(attr),
        None => Ok(()),
    }
}

/// Returns the attributes in ascending order of type; those of one type keep their order.
fn in_rising(attrs: RawAttrs) -> Result<RawAttrs, NoMemory>
    ensures { IfOk result (λ sorted. sorted ≡ rising other_kind attrs) }
{
    let mut attrs = attrs.into_vec();
    attrs.sort_by_key(|attr| attr.kind)?;
    Ok(RawAttrs::from_vec(attrs))
}

/// Whether the AS is AS_TRANS, which stands for one that doesn't fit into two octets.
fn is_as_trans(aggregator: &Aggregator) -> bool
    ensures { result ≡ (aggregator.now.as_number == 23456) }
{
    aggregator.as_number == u32::from(AS_TRANS)
}

/// Whether AGGREGATOR has an AS other than AS_TRANS while AS4_AGGREGATOR is present.
fn is_stale(aggregator: &Option<Aggregator>, as4_aggregator: &Option<Aggregator>) -> bool
    ensures { result ≡ is_stale aggregator.now as4_aggregator.now }
{
    match (aggregator, as4_aggregator) {
        (Some(aggregator), Some(_)) => !is_as_trans(aggregator),
        _ => false,
    }
}

/// Returns AS4_AGGREGATOR's values if AGGREGATOR has AS_TRANS. The partial flag is AGGREGATOR's.
fn aggregator_of(
    aggregator: Option<Aggregator>,
    as4_aggregator: Option<Aggregator>,
) -> Option<Aggregator>
    ensures { result ≡ merged_aggregator aggregator as4_aggregator }
{
    let aggregator = aggregator?;
    match as4_aggregator {
        Some(as4_aggregator) if is_as_trans(&aggregator) => Some(Aggregator {
            as_number: as4_aggregator.as_number,
            address: as4_aggregator.address,
            partial: aggregator.partial,
        }),
        _ => Some(aggregator),
    }
}

/// Returns the path of both, or AS_PATH if the AS4 attributes are stale.
fn path_of(
    alloc: Global,
    stale: bool,
    path: Option<AsPath>,
    as4_path: Option<AsPath>,
) -> Result<Option<AsPath>, NoMemory>
    ensures { IfOk result (λ p. p ≡ path_with stale path as4_path) }
{
    match (path, as4_path) {
        (Some(path), Some(as4_path)) if !stale => Ok(Some(merged(alloc, path, as4_path)?)),
        (path, _) => Ok(path),
    }
}

impl Said {
    /// Returns what no attributes give.
    #[tactic(auto, unfolding(crate::specs::Saying::attributes_said))]
    pub fn new(alloc: Global) -> Said
        ensures { (wide : Bool) → result ≡ attributes_said wide [] }
    {
        Said {
            origin: None,
            path: None,
            next_hop: None,
            med: None,
            atomic: false,
            aggregator: None,
            as4_path: None,
            as4_aggregator: None,
            unknown: RawAttrs::new(alloc),
        }
    }

    /// Adds what a further attribute gives, or returns its fault.
    #[tactic(auto, unfolding(bgp_types::specs::Faults::own_fault, crate::specs::Saying::with_attr))]
    pub fn add(&mut self, alloc: Global, piece: &Piece, wide: bool) -> Result<(), CodecFault>
        requires { IsPiece piece.now }
        ensures fault { PassesOrStops result (own_fault wide (wire piece.now)) }
        ensures said { OnOk result (self.new ≡ with_attr wide (wire piece.now) self.old) }
    {
        match piece.kind {
            ORIGIN => self.origin = Some(piece.origin(alloc)?),
            AS_PATH => self.path = Some(piece.path(alloc, wide)?),
            NEXT_HOP => self.next_hop = Some(piece.next_hop(alloc)?),
            MULTI_EXIT_DISC => self.med = Some(piece.med(alloc)?),
            LOCAL_PREF => {}
            ATOMIC_AGGREGATE => {
                piece.atomic(alloc)?;
                self.atomic = true;
            }
            AGGREGATOR => self.aggregator = Some(piece.aggregator(alloc, wide)?),
            AS4_PATH => {
                piece.optional(alloc)?;
                self.as4_path = piece.as4_path(alloc, wide)?;
            }
            AS4_AGGREGATOR => {
                piece.optional(alloc)?;
                self.as4_aggregator = piece.as4_aggregator(wide);
            }
            _ => keep(&mut self.unknown, piece.other(alloc)?)?,
        }
        Ok(())
    }

    /// Returns what the attributes give together. If memory runs out, the value is lost.
    pub fn found(self, alloc: Global) -> Result<FoundAttrs, NoMemory>
        ensures { IfOk result (λ found. found ≡ found_of self) }
    {
        let stale = is_stale(&self.aggregator, &self.as4_aggregator);
        let Said {
            origin,
            path,
            next_hop,
            med,
            atomic,
            aggregator,
            as4_path,
            as4_aggregator,
            unknown,
        } = self;
        Ok(FoundAttrs {
            origin,
            path: path_of(alloc, stale, path, as4_path)?,
            next_hop,
            med,
            atomic,
            aggregator: aggregator_of(aggregator, as4_aggregator),
            unknown: in_rising(unknown)?,
        })
    }
}
