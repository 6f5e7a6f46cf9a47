//! The five kinds of row: objects, properties, slots, verbs and petitions.

ghost use Rattle.std.specs.Prelude.{refl};
ghost use Rattle.moo_rows.specs.Exact.{prop_exact, verb_id_exact, petition_exact};
ghost use Rattle.moo_rows.specs.{Maps.{object_cmp, prop_cmp, slot_cmp, verb_cmp, petition_cmp}, ObjectRow.{object_row-exact, object_clone}};
ghost use Rattle.moo_rows.specs.Ordered.{IsNext};
ghost use Rattle.moo_rows.specs.SameRows.{prop_row-exact, slot_row-exact, verb_row-exact, petition_row-exact, prop_clone, slot_clone};
ghost use Rattle.moo_rows.specs.SameRows.{verb_clone, petition_clone};

use crate::keyed::{KeyedRow, Row};
use crate::ordered::OrderedKey;
use crate::row::{ObjRow, PetitionId, PetitionRow, PropId, PropRow, SlotRow, VerbId, VerbRow};
use crate::rows::Rows;
use moo_value::ObjNo;
use std::alloc::AllocError;

impl Row for ObjRow {
    ghost exact = { object_row-exact };

    ghost clones = { object_clone };
}

impl KeyedRow for ObjRow {
    type Key = ObjNo;

    ghost order = { object_cmp };

    ghost map_of = { λ maps. maps.objects };

    ghost with_map = { λ maps rows. record maps { objects = rows } };

    fn find<R: Rows>(rows: &R, key: ObjNo) -> Option<&ObjRow> {
        rows.object(key)
    }

    fn next<R: Rows>(rows: &R, from: Option<ObjNo>) -> Option<ObjNo>
        ensures { IsNext (R.held rows.now).maps.objects from result }
    {
        rows.next_object(from)
    }

    fn put<R: Rows>(rows: &mut R, key: ObjNo, row: ObjRow) -> Result<(), AllocError> {
        rows.put_object(key, row)
    }

    fn remove<R: Rows>(rows: &mut R, key: ObjNo) -> Result<(), AllocError> {
        rows.remove_object(key)
    }

    ghost ordered = { refl };

    ghost own_map = { λ _. refl };

    ghost other_map = { λ _ _. refl };

    ghost last_map = { λ _ _ _. refl };
}

impl OrderedKey for PropId {
    ghost exact = { prop_exact };
}

impl Row for PropRow {
    ghost exact = { prop_row-exact };

    ghost clones = { prop_clone };
}

impl KeyedRow for PropRow {
    type Key = PropId;

    ghost order = { prop_cmp };

    ghost map_of = { λ maps. maps.props };

    ghost with_map = { λ maps rows. record maps { props = rows } };

    fn find<R: Rows>(rows: &R, key: PropId) -> Option<&PropRow> {
        rows.prop(key)
    }

    fn next<R: Rows>(rows: &R, from: Option<PropId>) -> Option<PropId>
        ensures { IsNext (R.held rows.now).maps.props from result }
    {
        rows.next_prop(from)
    }

    fn put<R: Rows>(rows: &mut R, key: PropId, row: PropRow) -> Result<(), AllocError> {
        rows.put_prop(key, row)
    }

    fn remove<R: Rows>(rows: &mut R, key: PropId) -> Result<(), AllocError> {
        rows.remove_prop(key)
    }

    ghost ordered = { refl };

    ghost own_map = { λ _. refl };

    ghost other_map = { λ _ _. refl };

    ghost last_map = { λ _ _ _. refl };
}

impl Row for SlotRow {
    ghost exact = { slot_row-exact };

    ghost clones = { slot_clone };
}

impl KeyedRow for SlotRow {
    type Key = (ObjNo, PropId);

    ghost order = { slot_cmp };

    ghost map_of = { λ maps. maps.slots };

    ghost with_map = { λ maps rows. record maps { slots = rows } };

    fn find<R: Rows>(rows: &R, key: (ObjNo, PropId)) -> Option<&SlotRow> {
        rows.slot(key)
    }

    fn next<R: Rows>(rows: &R, from: Option<(ObjNo, PropId)>) -> Option<(ObjNo, PropId)>
        ensures { IsNext (R.held rows.now).maps.slots from result }
    {
        rows.next_slot(from)
    }

    fn put<R: Rows>(rows: &mut R, key: (ObjNo, PropId), row: SlotRow) -> Result<(), AllocError> {
        rows.put_slot(key, row)
    }

    fn remove<R: Rows>(rows: &mut R, key: (ObjNo, PropId)) -> Result<(), AllocError> {
        rows.remove_slot(key)
    }

    ghost ordered = { refl };

    ghost own_map = { λ _. refl };

    ghost other_map = { λ _ _. refl };

    ghost last_map = { λ _ _ _. refl };
}

impl OrderedKey for VerbId {
    ghost exact = { verb_id_exact };
}

impl Row for VerbRow {
    ghost exact = { verb_row-exact };

    ghost clones = { verb_clone };
}

impl KeyedRow for VerbRow {
    type Key = (ObjNo, VerbId);

    ghost order = { verb_cmp };

    ghost map_of = { λ maps. maps.verbs };

    ghost with_map = { λ maps rows. record maps { verbs = rows } };

    fn find<R: Rows>(rows: &R, key: (ObjNo, VerbId)) -> Option<&VerbRow> {
        rows.verb(key)
    }

    fn next<R: Rows>(rows: &R, from: Option<(ObjNo, VerbId)>) -> Option<(ObjNo, VerbId)>
        ensures { IsNext (R.held rows.now).maps.verbs from result }
    {
        rows.next_verb(from)
    }

    fn put<R: Rows>(rows: &mut R, key: (ObjNo, VerbId), row: VerbRow) -> Result<(), AllocError> {
        rows.put_verb(key, row)
    }

    fn remove<R: Rows>(rows: &mut R, key: (ObjNo, VerbId)) -> Result<(), AllocError> {
        rows.remove_verb(key)
    }

    ghost ordered = { refl };

    ghost own_map = { λ _. refl };

    ghost other_map = { λ _ _. refl };

    ghost last_map = { λ _ _ _. refl };
}

impl OrderedKey for PetitionId {
    ghost exact = { petition_exact };
}

impl Row for PetitionRow {
    ghost exact = { petition_row-exact };

    ghost clones = { petition_clone };
}

impl KeyedRow for PetitionRow {
    type Key = PetitionId;

    ghost order = { petition_cmp };

    ghost map_of = { λ maps. maps.petitions };

    ghost with_map = { λ maps rows. record maps { petitions = rows } };

    fn find<R: Rows>(rows: &R, key: PetitionId) -> Option<&PetitionRow> {
        rows.petition(key)
    }

    fn next<R: Rows>(rows: &R, from: Option<PetitionId>) -> Option<PetitionId>
        ensures { IsNext (R.held rows.now).maps.petitions from result }
    {
        rows.next_petition(from)
    }

    fn put<R: Rows>(rows: &mut R, key: PetitionId, row: PetitionRow) -> Result<(), AllocError> {
        rows.put_petition(key, row)
    }

    fn remove<R: Rows>(rows: &mut R, key: PetitionId) -> Result<(), AllocError> {
        rows.remove_petition(key)
    }

    ghost ordered = { refl };

    ghost own_map = { λ _. refl };

    ghost other_map = { λ _ _. refl };

    ghost last_map = { λ _ _ _. refl };
}
