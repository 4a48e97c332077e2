// What holds of keysets as a whole, each on the contract of a call.
ghost use Rattle.keysets.specs.Claims.{FindsFirst, RefusedChangesNothing, TouchesOneKey, DisabledAndEnabled, OnlyDestroyDropsData, IdsStayDistinct};
ghost use Rattle.keysets.specs.Validity.{AcceptsTheValid, ChecksInOrder};
ghost use Rattle.keysets.specs.Managers.{KeepsLaws};
ghost use Rattle.keysets.specs.Cmac128.{cmac128_maker, cmac128_keys};
ghost use Rattle.keysets.specs.ChipPublic.{chip_public_maker, chip_public_keys};

use crate::registry::chip_public::ChipPublic;
use crate::registry::cmac128::Cmac128;
use crate::registry::key_manager::KeyManager;

// An id stands for the first key that has it.
pub fn ids_find_the_first_key() -> bool
    ensures { FindsFirst }
{
    true
}

pub fn refused_edits_change_nothing() -> bool
    ensures { RefusedChangesNothing }
{
    true
}

pub fn edits_touch_one_key() -> bool
    ensures { TouchesOneKey }
{
    true
}

pub fn enabling_undoes_disabling() -> bool
    ensures { DisabledAndEnabled }
{
    true
}

pub fn only_destroy_drops_data() -> bool
    ensures { OnlyDestroyDropsData }
{
    true
}

pub fn edits_keep_ids_distinct() -> bool
    ensures { IdsStayDistinct }
{
    true
}

// `validate` accepts the valid keysets and no other.
pub fn validation_accepts_the_valid() -> bool
    ensures { AcceptsTheValid }
{
    true
}

// `check` refuses at the first key that fails.
pub fn checks_go_in_order() -> bool
    ensures { ChecksInOrder }
{
    true
}

// A manager's type URL is within the limits, its material is 0 to 4, and a key that it makes has 1 to 128 bytes, took words
// that were there, and gives a primitive. This holds of each manager, and so of the two that are here.
pub fn key_managers_keep_their_laws<M: KeyManager>(manager: &M) -> bool
    ensures { KeepsLaws (M.maker manager.now) (M.keys manager.now) }
{
    true
}

pub fn cmac128_keeps_the_laws() -> bool
    ensures { KeepsLaws cmac128_maker cmac128_keys }
{
    key_managers_keep_their_laws(&Cmac128)
}

pub fn chip_public_keeps_the_laws() -> bool
    ensures { KeepsLaws chip_public_maker chip_public_keys }
{
    key_managers_keep_their_laws(&ChipPublic)
}
