// Years of a keyset in a few calls: keys are made, disabled, brought back and destroyed, and the listing shows it each time.
#![tactic(auto)]

use anyhow::anyhow;
use ciphers::draws::CipherWords;
use ciphers::fault::Fault;
use encoding::numbers::OutputPrefixType;
use encoding::records::{KeyId, KeyTemplate};
use keysets::manager::Manager;
use keysets::registry::cmac128::Cmac128;
use keysets::registry::{Place, Registry};

// The key that the maker burns into a cabinet; every other key is drawn under it.
const DEVICE_KEY: [u8; 16] = *b"cabinet 41 north";

fn list(rt: &HostRuntime, manager: &Manager) -> anyhow::Result<()> {
    let lines = sheet::keys::keys(rt.alloc(), manager)?;
    print!(rt; "{lines}")?;
    Ok(())
}

fn tell(rt: &HostRuntime, call: &str, answer: Result<(), Fault>) -> anyhow::Result<()> {
    match answer {
        Ok(()) => println!(rt; "{call}: done")?,
        Err(fault) => println!(rt; "{call}: {fault}")?,
    }
    Ok(())
}

fn made(answer: Result<KeyId, Fault>) -> anyhow::Result<KeyId> {
    answer.map_err(|_| anyhow!("a key could not be made"))
}

fn template(url: &[u8]) -> anyhow::Result<KeyTemplate> {
    let template = KeyTemplate::new(url, b"", OutputPrefixType::Tink.into());
    template.map_err(|_| anyhow!("the template is past a limit"))
}

// The primary key stays as it is, and the other one goes through all that may happen to a key.
fn edit_keys(
    rt: &HostRuntime,
    manager: &mut Manager,
    primary: KeyId,
    other: KeyId,
) -> anyhow::Result<()> {
    tell(rt, "disable the other", manager.disable(other))?;
    tell(rt, "make it primary", manager.set_primary(other))?;
    list(rt, manager)?;
    tell(rt, "enable it", manager.enable(other))?;
    tell(rt, "disable the primary", manager.disable(primary))?;
    tell(rt, "destroy the other", manager.destroy(other))?;
    tell(rt, "enable it again", manager.enable(other))?;
    list(rt, manager)?;
    tell(rt, "delete it", manager.delete(other))?;
    tell(rt, "delete it twice", manager.delete(other))
}

fn refuse_keys(
    rt: &HostRuntime,
    manager: &mut Manager,
    registry: &Registry<Cmac128>,
    words: &mut CipherWords,
) -> anyhow::Result<()> {
    let unknown = template(b"junction/none")?;
    if let Err(fault) = manager.rotate(registry, &unknown, words) {
        println!(rt; "a key of a type that nobody makes: {fault}")?;
    }
    let known = template(b"junction/cmac128")?;
    if let Err(fault) = manager.rotate(registry, &known, words) {
        println!(rt; "a third key: {fault}")?;
    }
    list(rt, manager)
}

// Ten words are enough for two keys.
fn keep_keys(rt: &HostRuntime, device_key: [u8; 16]) -> anyhow::Result<()> {
    let mut bank = [Place::new(Cmac128)];
    let mut registry = Registry::new(&mut bank);
    tell(
        rt,
        "register the CMAC keys",
        registry.register_key_manager(0),
    )?;
    tell(rt, "register them twice", registry.register_key_manager(0))?;
    let mut words = CipherWords::new(device_key, 10);
    let mut manager = Manager::new();
    let known = template(b"junction/cmac128")?;
    let primary = made(manager.rotate(&registry, &known, &mut words))?;
    let other = made(manager.add(&registry, &known, false, &mut words))?;
    list(rt, &manager)?;
    edit_keys(rt, &mut manager, primary, other)?;
    refuse_keys(rt, &mut manager, &registry, &mut words)
}

fn main(rt: HostRuntime) -> anyhow::Result<()> {
    keep_keys(&rt, DEVICE_KEY)
}
