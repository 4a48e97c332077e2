// The numbers of status, prefix type and key material that have a meaning. Each enum has impls of its own: the gate takes
// none that a macro of the repository writes.
ghost use Rattle.std.specs.Prelude.{◌≡◌};
ghost use Rattle.encoding.specs.Numbers.{status_number, prefix_number, material_number};
ghost use Rattle.encoding.specs.Kinds.{KindOf, status_of, prefix_of, material_of};

#[derive(Clone, Copy, PartialEq, Eq, Debug)]
pub enum KeyStatusType {
    Enabled = 1,
    Disabled = 2,
    Destroyed = 3,
}

#[derive(Clone, Copy, PartialEq, Eq, Debug)]
pub enum OutputPrefixType {
    Tink = 1,
    Legacy = 2,
    Raw = 3,
    Crunchy = 4,
}

#[derive(Clone, Copy, PartialEq, Eq, Debug)]
pub enum KeyMaterialType {
    UnknownKeymaterial = 0,
    Symmetric = 1,
    AsymmetricPrivate = 2,
    AsymmetricPublic = 3,
    Remote = 4,
}

// A number that no status, prefix type or key material type has.
#[derive(Clone, Copy, PartialEq, Eq, Debug)]
pub struct UnknownNumber(pub i32);

impl From<KeyStatusType> for i32 {
    ghost from_gives = { λ status n. n ≡ status_number status };

    fn from(status: KeyStatusType) -> i32 {
        status as i32
    }
}

impl From<OutputPrefixType> for i32 {
    ghost from_gives = { λ prefix n. n ≡ prefix_number prefix };

    fn from(prefix: OutputPrefixType) -> i32 {
        prefix as i32
    }
}

impl From<KeyMaterialType> for i32 {
    ghost from_gives = { λ material n. n ≡ material_number material };

    fn from(material: KeyMaterialType) -> i32 {
        material as i32
    }
}

impl TryFrom<i32> for KeyStatusType {
    type Error = UnknownNumber;

    ghost try_from_gives = { KindOf status_number status_of };

    fn try_from(n: i32) -> Result<KeyStatusType, UnknownNumber> {
        match n {
            1 => Ok(KeyStatusType::Enabled),
            2 => Ok(KeyStatusType::Disabled),
            3 => Ok(KeyStatusType::Destroyed),
            _ => Err(UnknownNumber(n)),
        }
    }
}

impl TryFrom<i32> for OutputPrefixType {
    type Error = UnknownNumber;

    ghost try_from_gives = { KindOf prefix_number prefix_of };

    fn try_from(n: i32) -> Result<OutputPrefixType, UnknownNumber> {
        match n {
            1 => Ok(OutputPrefixType::Tink),
            2 => Ok(OutputPrefixType::Legacy),
            3 => Ok(OutputPrefixType::Raw),
            4 => Ok(OutputPrefixType::Crunchy),
            _ => Err(UnknownNumber(n)),
        }
    }
}

impl TryFrom<i32> for KeyMaterialType {
    type Error = UnknownNumber;

    ghost try_from_gives = { KindOf material_number material_of };

    fn try_from(n: i32) -> Result<KeyMaterialType, UnknownNumber> {
        match n {
            0 => Ok(KeyMaterialType::UnknownKeymaterial),
            1 => Ok(KeyMaterialType::Symmetric),
            2 => Ok(KeyMaterialType::AsymmetricPrivate),
            3 => Ok(KeyMaterialType::AsymmetricPublic),
            4 => Ok(KeyMaterialType::Remote),
            _ => Err(UnknownNumber(n)),
        }
    }
}
