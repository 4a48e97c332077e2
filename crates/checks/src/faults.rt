// Numbers, letters and how a fault prints: the tables of docs/refusals.md.
use ciphers::fault::{Fault, Layer, Refusal};
use std::test::Fail;

#[test]
fn numbers(rt: HostRuntime) {
    let table = [
        (Refusal::EmptyKeyset, 1),
        (Refusal::ZeroKeyId, 2),
        (Refusal::NoKeyData, 3),
        (Refusal::UnknownPrefixType, 4),
        (Refusal::UnknownStatus, 5),
        (Refusal::SecondPrimary, 6),
        (Refusal::NoneEnabled, 7),
        (Refusal::NoPrimary, 8),
        (Refusal::UnknownMaterial, 9),
        (Refusal::KeyNotFound, 10),
        (Refusal::KeyIsPrimary, 11),
        (Refusal::StatusBars, 12),
        (Refusal::NotRegistered, 13),
        (Refusal::RegisteredAlready, 14),
        (Refusal::EmptyValue, 15),
        (Refusal::KeyManagerReason, 16),
        (Refusal::NoWordLeft, 20),
        (Refusal::KeysetFull, 21),
        (Refusal::DoesNotOpen, 22),
        (Refusal::BreaksEncoding, 23),
        (Refusal::HoldsNothing, 24),
        (Refusal::Damaged, 25),
        (Refusal::WrongSize, 26),
        (Refusal::VersionTooHigh, 27),
    ];
    for (refusal, number) in &table {
        assert_eq!(rt; refusal.number(), *number);
    }
}

#[test]
fn letters(rt: HostRuntime) {
    let table = [
        (Layer::Manager, 'M'),
        (Layer::Validation, 'V'),
        (Layer::Handle, 'H'),
        (Layer::Registry, 'R'),
        (Layer::KeyManager, 'K'),
        (Layer::Draws, 'D'),
        (Layer::Aead, 'A'),
        (Layer::Encoding, 'C'),
        (Layer::Store, 'S'),
    ];
    for (layer, letter) in &table {
        assert_eq!(rt; layer.letter(), *letter);
    }
}

// The reason is printed with number 16 alone; a place and a reason do not disturb each other.
#[test]
fn prints(rt: HostRuntime) -> Result<(), Fail> {
    let reasoned = Fault::new(Refusal::KeyManagerReason, Layer::KeyManager);
    let text = format!(in rt.alloc(); "{}", reasoned.because(2).at(3))?;
    assert_eq!(rt;
        text.as_str(),
        "refused 16 K at 3: the key manager refused, reason 2"
    );
    let short = Fault::new(Refusal::WrongSize, Layer::Aead);
    let text = format!(in rt.alloc(); "{short}")?;
    assert_eq!(rt;
        text.as_str(),
        "refused 26 A at 0: something is too short or too long"
    );
    let barred = Fault::new(Refusal::StatusBars, Layer::Manager);
    let text = format!(in rt.alloc(); "{}", barred.at(3).because(7))?;
    assert_eq!(rt;
        text.as_str(),
        "refused 12 M at 3: the key's status bars the edit"
    );
    Ok(())
}
