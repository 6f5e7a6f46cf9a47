//! Objects that may have a link, and properties that an object may define; their rows are still to be looked at.

ghost use Rattle.std.specs.Prelude.{◌≡◌, ◌≢◌, ◌⊎◌, ◌↔◌, true, false, Some, option_map, IfOk, IfSome, IsTrue, OnOk};
ghost use Rattle.moo_value.specs.declared.value.ObjNo.{ObjNo};
ghost use Rattle.moo_rows.specs.{declared.row.Link.{Link}, declared.row.PropId.{PropId}, Maps.{object_cmp, prop_cmp, slot_cmp}};
ghost use Rattle.moo_rows.specs.Ordered.{contents};
ghost use Rattle.moo_rows.specs.Links.{IsFirst, tie_cmp, has_link, is_candidate, is_kept, is_to_nothing, may_have, row_defined, row_has};
ghost use Rattle.moo_rows.specs.Links.{ties_have, ties_of};
ghost use Rattle.moo_memory.specs.Forgotten.{AddsOnly, Forgets, ForgetsKey, ForgetsOnly, has_key};

use moo_rows::{Link, ObjRow, PropId, PropRow, Ties, ordered};
use moo_value::ObjNo;
use std::alloc::{AllocError, Global};
use std::collections::BTreeMap;
use std::marker::Model;

/// Which objects may have a link: each that has it, and maybe others. A link to `#-1` any object may have: most objects have one, and
/// hardly anybody asks for it, so no object is kept for it.
#[derive(Drop)]
pub struct Links {
    parents: BTreeMap<(ObjNo, ObjNo), ()>,
    locations: BTreeMap<(ObjNo, ObjNo), ()>,
    players: BTreeMap<ObjNo, ()>,
}

impl Model for Links {
    ghost use Rattle.moo_rows.specs.Maps.{object_cmp};
    ghost use Rattle.moo_rows.specs.Links.{LinkSets, coded_link_sets, tie_cmp};
    ghost use Rattle.moo_rows.specs.Ordered.{contents};

    ghost Value = { LinkSets };

    ghost coded = { coded_link_sets };

    ghost view = { λ l. record {
      parents = contents tie_cmp l.parents;
      locations = contents tie_cmp l.locations;
      players = contents object_cmp l.players;
    } };
}

/// The ties of a row: its parent, its location, and whether it is a player. `None` if there is no row.
pub fn ties_of(row: Option<&ObjRow>) -> Option<Ties>
    ensures { result ≡ option_map ties_of (option_map (λ row. row.now) row.entry) }
{
    match row {
        None => None,
        Some(row) => Some(row.ties()),
    }
}

/// Whether there were old ties, and `ties` equals them.
pub fn same_ties(old: Option<Ties>, ties: Ties) -> bool
    ensures { IsTrue result ↔ (old ≡ Some ties) }
{
    old == Some(ties)
}

/// Whether there is a row of an object, and the object has the link.
pub fn row_has(row: Option<&ObjRow>, link: Link) -> bool
    ensures { result ≡ row_has link (option_map (λ row. row.now) row.entry) }
{
    match row {
        None => false,
        Some(row) => row.ties().have(link),
    }
}

/// Whether there is a row of a property, and x defines it.
pub fn row_defined(row: Option<&PropRow>, x: ObjNo) -> bool
    ensures { result ≡ row_defined x (option_map (λ row. row.now) row.entry) }
{
    match row {
        None => false,
        Some(row) => row.definer == x,
    }
}

/// The least object past `after` that is paired with x, or `None` if there is no such object.
fn next_tied(pairs: &BTreeMap<(ObjNo, ObjNo), ()>, x: ObjNo, after: ObjNo) -> Option<ObjNo>
    ensures { IsFirst object_cmp (λ q. has_key tie_cmp pairs.now (x, q)) after result }
{
    let (of, key) = ordered::next(pairs, Some((x, after)))?;
    if of == x { Some(key) } else { None }
}

/// The least object past `after` that is a key of the map, or `None` if there is no such object.
fn next_of<V>(objects: &BTreeMap<ObjNo, V>, after: ObjNo) -> Option<ObjNo>
    ensures { IsFirst object_cmp (λ q. has_key object_cmp objects.now q) after result }
{
    ordered::next(objects, Some(after))
}

/// The least property past `after` that is paired with x, as its definer, or `None` if there is no such property.
pub fn next_defined(
    pairs: &BTreeMap<(ObjNo, PropId), ()>,
    x: ObjNo,
    after: PropId,
) -> Option<PropId>
    ensures { IsFirst prop_cmp (λ q. has_key slot_cmp pairs.now (x, q)) after result }
{
    let (of, key) = ordered::next(pairs, Some((x, after)))?;
    if of == x { Some(key) } else { None }
}

/// The object that defines the property of a row; `None` if there is no row.
pub fn definer_of(row: Option<&PropRow>) -> Option<ObjNo>
    ensures { result ≡ option_map (λ r. r.definer) (option_map (λ row. row.now) row.entry) }
{
    match row {
        None => None,
        Some(row) => Some(row.definer),
    }
}

/// Whether there is a first object, and it is the other one.
fn is_that(one: Option<ObjNo>, other: ObjNo) -> bool
    ensures { IsTrue result ↔ (one ≡ Some other) }
{
    one == Some(other)
}

/// Keeps a property no longer for the object that defined it, `was`, unless `stays`, its definer after the change, is that object.
/// `None` stands for no definer. Takes no memory.
pub fn forget_defined(
    pairs: &mut BTreeMap<(ObjNo, PropId), ()>,
    was: Option<ObjNo>,
    stays: Option<ObjNo>,
    key: PropId,
)
    ensures { ForgetsKey key was stays (contents slot_cmp pairs.old) (contents slot_cmp pairs.new) }
{
    let was = match was {
        None => return,
        Some(was) => was,
    };
    if is_that(stays, was) {
        return;
    }
    ordered::remove(pairs, (was, key));
}

/// Whether there are ties, and they have the link.
fn have_link(ties: Option<Ties>, link: Link) -> bool
    ensures { result ≡ ties_have link ties }
{
    match ties {
        None => false,
        Some(ties) => ties.have(link),
    }
}

impl Links {
    /// Links for which no object is kept.
    pub fn new(alloc: Global) -> Links
        ensures { (link : Link) (key : ObjNo) → is_kept result link key ≡ false }
    {
        Links {
            parents: BTreeMap::new(alloc),
            locations: BTreeMap::new(alloc),
            players: BTreeMap::new(alloc),
        }
    }

    /// Links that keep the same objects. The only error is a lack of memory.
    pub fn copy(&self) -> Result<Links, AllocError>
        ensures { IfOk result (λ copy. copy ≡ self.now) }
    {
        Ok(Links {
            parents: self.parents.clone()?,
            locations: self.locations.clone()?,
            players: self.players.clone()?,
        })
    }

    /// The least object past `after` that is kept for the link, or `None` if there is no such object. Takes no memory.
    fn next_kept(&self, link: Link, after: ObjNo) -> Option<ObjNo>
        ensures { IsFirst object_cmp (is_kept self.now link) after result }
    {
        match link {
            Link::ChildOf(x) => next_tied(&self.parents, x, after),
            Link::Within(x) => next_tied(&self.locations, x, after),
            Link::Player => next_of(&self.players, after),
        }
    }

    /// The least object past `after` that is to be looked at for the link, or `None` if there is no such object: of all held objects if the
    /// link is to `#-1`, else of those that are kept for it. Takes no memory.
    pub fn next<V>(&self, held: &BTreeMap<ObjNo, V>, link: Link, after: ObjNo) -> Option<ObjNo>
        ensures { IsFirst object_cmp (is_candidate self.now (contents object_cmp held.now) link) after result }
    {
        if link.is_to_nothing() {
            next_of(held, after)
        } else {
            self.next_kept(link, after)
        }
    }

    /// The pairs that tell who is kept for a link to an object, and that object; `None` for a link to `#-1`, and for that of players.
    pub fn pairs_of(&self, link: Link) -> Option<(&BTreeMap<(ObjNo, ObjNo), ()>, ObjNo)>
        // If there are pairs, the link isn't to `#-1`, and an object is paired with the one that is answered exactly if it is kept for it.
        ensures { IfSome result (λ p. (is_to_nothing link ≡ false)
            × ((key : ObjNo) → has_key tie_cmp p.0.now (p.1, key) ≡ is_kept self.now link key)) }
    {
        if link.is_to_nothing() {
            return None;
        }
        match link {
            Link::ChildOf(x) => Some((&self.parents, x)),
            Link::Within(x) => Some((&self.locations, x)),
            Link::Player => None,
        }
    }

    /// Keeps an object for a link; for a link to `#-1` nothing is kept. The only error is a lack of memory.
    fn add_one(&mut self, link: Link, key: ObjNo) -> Result<(), AllocError>
        // Each object that might have a link still may.
        ensures others { (l : Link) (q : ObjNo) → may_have self.new l q ≡ false → may_have self.old l q ≡ false }
        // Without an error, the object may have the link.
        ensures there { OnOk result (may_have self.new link key ≡ true) }
        // No object is kept for a link that wasn't, but for this object and this link, if that isn't to `#-1`.
        ensures only { (l : Link) (q : ObjNo) → is_kept self.new l q ≡ true →
            (is_kept self.old l q ≡ true) ⊎ ((q ≡ key) × ((l ≡ link) × (is_to_nothing l ≡ false))) }
    {
        if link.is_to_nothing() {
            return Ok(());
        }
        match link {
            Link::ChildOf(x) => ordered::put(&mut self.parents, (x, key), ()),
            Link::Within(x) => ordered::put(&mut self.locations, (x, key), ()),
            Link::Player => ordered::put(&mut self.players, key, ()),
        }
    }

    /// Keeps an object for the links that go with these ties. After an `Err`, a lack of memory, it may be kept for some of the links.
    pub fn add(&mut self, key: ObjNo, ties: Ties) -> Result<(), AllocError>
        // Each object that might have a link still may.
        ensures others { (l : Link) (q : ObjNo) → may_have self.new l q ≡ false → may_have self.old l q ≡ false }
        // Without an error, the object may have each link that goes with the ties.
        ensures there { OnOk result ((l : Link) → has_link l ties ≡ true → may_have self.new l key ≡ true) }
        // No object is kept for a link that wasn't, but for this object and the links of the ties, those to `#-1` aside.
        ensures only { AddsOnly key ties self.old self.new }
    {
        self.add_one(Link::ChildOf(ties.parent), key)?;
        self.add_one(Link::Within(ties.location), key)?;
        if ties.player {
            self.add_one(Link::Player, key)?;
        }
        Ok(())
    }

    /// Keeps an object for a link no longer, unless the link goes with the ties that stay. Takes no memory.
    fn forget_one(&mut self, link: Link, key: ObjNo, stays: Option<Ties>)
        // Only this object may lose links, and none that goes with the ties that stay.
        ensures only { ForgetsOnly key stays self.old self.new }
        // No object is kept for a link that wasn't; and this object is kept for this link only if that goes with the ties that stay.
        ensures gone { (l : Link) (q : ObjNo) → is_kept self.new l q ≡ true →
            (is_kept self.old l q ≡ true) × (q ≡ key → l ≡ link → is_to_nothing l ≡ false → ties_have l stays ≡ true) }
    {
        if link.is_to_nothing() {
            return;
        }
        if have_link(stays, link) {
            return;
        }
        match link {
            Link::ChildOf(x) => ordered::remove(&mut self.parents, (x, key)),
            Link::Within(x) => ordered::remove(&mut self.locations, (x, key)),
            Link::Player => ordered::remove(&mut self.players, key),
        }
    }

    /// Keeps an object no longer for the links that went with its old ties, unless they go with the ties that stay. `None` stands for no
    /// ties. Takes no memory.
    pub fn forget(&mut self, key: ObjNo, old: Option<Ties>, stays: Option<Ties>)
        // Only this object may lose links, and none that goes with the ties that stay.
        ensures only { ForgetsOnly key stays self.old self.new }
        // No object is kept for a link that wasn't; and this one for none that went with its old ties, unless it goes with those that stay.
        ensures gone { Forgets key old stays self.old self.new }
    {
        let old = match old {
            None => return,
            Some(old) => old,
        };
        self.forget_one(Link::ChildOf(old.parent), key, stays);
        self.forget_one(Link::Within(old.location), key, stays);
        if old.player {
            self.forget_one(Link::Player, key, stays);
        }
    }
}
