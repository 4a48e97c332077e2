// A cabinet seals a signal plan for its controller, opens it again, and refuses what was damaged on the way. It writes a
// keyset as bytes and reads it back.
#![tactic(auto)]

use anyhow::{Context, anyhow};
use ciphers::aead::Aead;
use ciphers::draws::{CipherWords, Draws};
use ciphers::fault::Fault;
use ciphers::siv::Siv;
use encoding::message::{read, write};
use encoding::numbers::{KeyStatusType, OutputPrefixType};
use encoding::records::{Key, Keyset};
use std::fs;

// The key that the maker burns into a cabinet; every other key is drawn under it.
const DEVICE_KEY: [u8; 16] = *b"cabinet 41 north";

// What a sealed plan belongs to.
const PLACE: [u8; 11] = *b"junction 41";

// Thirty-two bytes from eight words, each with its highest byte first.
fn draw_key<D: Draws>(source: &mut D) -> Result<[u8; 32], Fault> {
    let mut key = [0u8; 32];
    for word in key.chunks_exact_mut(4) {
        word.copy_from_slice(&source.draw()?.to_be_bytes());
    }
    Ok(key)
}

// The refusal of a call that has to be refused.
fn refusal(answer: Result<usize, Fault>) -> anyhow::Result<Fault> {
    answer
        .err()
        .context("a call that has to be refused was accepted")
}

fn seal(rt: &HostRuntime, siv: &Siv, plan: &[u8]) -> anyhow::Result<Vec<u8>> {
    let heap = rt.alloc();
    let mut sealed = vec![in heap; 0u8; plan.len().saturating_add(16)]?;
    let n = siv
        .encrypt(plan, &PLACE, &mut sealed)
        .map_err(|_| anyhow!("the plan is too long to be sealed"))?;
    sealed.truncate(n);
    let shown = sheet::hex(heap, &sealed)?;
    println!(rt; "sealed {n} bytes: {shown}")?;
    Ok(sealed)
}

fn open(rt: &HostRuntime, siv: &Siv, sealed: &[u8]) -> anyhow::Result<()> {
    let mut plain = vec![in rt.alloc(); 0u8; sealed.len()]?;
    let n = siv
        .decrypt(sealed, &PLACE, &mut plain)
        .map_err(|_| anyhow!("the sealed plan does not open"))?;
    plain.truncate(n);
    let text = String::from_utf8(plain).map_err(|_| anyhow!("the plan is no text"))?;
    let text = text.trim_end();
    println!(rt; "opened {n} bytes: {text}")?;
    Ok(())
}

fn refuse_damaged(rt: &HostRuntime, siv: &Siv, mut sealed: Vec<u8>) -> anyhow::Result<()> {
    let mut plain = vec![in rt.alloc(); 0u8; sealed.len()]?;
    let elsewhere = refusal(siv.decrypt(&sealed, b"junction 42", &mut plain))?;
    println!(rt; "for another junction: {elsewhere}")?;
    if let Some(last) = sealed.last_mut() {
        *last ^= 1;
    }
    let damaged = refusal(siv.decrypt(&sealed, &PLACE, &mut plain))?;
    println!(rt; "with one bit changed: {damaged}")?;
    Ok(())
}

// One key that was destroyed: its id and its place are kept, its bytes are gone.
fn destroyed_key(id: u32) -> Result<Keyset, Fault> {
    let mut keyset = Keyset::new();
    keyset.primary_key_id = id;
    keyset.key.push(Key {
        key_data: None,
        status: KeyStatusType::Destroyed.into(),
        key_id: id,
        output_prefix_type: OutputPrefixType::Tink.into(),
    })?;
    Ok(keyset)
}

fn show_keyset(rt: &HostRuntime, bytes: &[u8]) -> anyhow::Result<()> {
    match read::<Keyset>(bytes) {
        Ok(keyset) => {
            let primary = keyset.primary_key_id;
            let count = keyset.key.len();
            println!(rt; "read a keyset: primary id {primary}, keys {count}")?;
        }
        Err(fault) => println!(rt; "not a keyset: {fault}")?,
    }
    Ok(())
}

fn keep_keyset(rt: &HostRuntime) -> anyhow::Result<()> {
    let heap = rt.alloc();
    let mut bytes = vec![in heap; 0u8; 64]?;
    let keyset = destroyed_key(7).map_err(|_| anyhow!("the keyset is full"))?;
    let n = write(&keyset, &mut bytes).map_err(|_| anyhow!("the keyset has no room"))?;
    bytes.truncate(n);
    let shown = sheet::hex(heap, &bytes)?;
    println!(rt; "wrote a keyset, {n} bytes: {shown}")?;
    show_keyset(rt, &bytes)?;
    if let Some(last) = bytes.last_mut() {
        *last = 0;
    }
    show_keyset(rt, &bytes)
}

fn run(rt: &HostRuntime) -> anyhow::Result<()> {
    let plan = fs::read(rt, "plan.txt")?;
    let length = plan.len();
    println!(rt; "read the plan, {length} bytes")?;
    let mut source = CipherWords::new(DEVICE_KEY, 8);
    let key = draw_key(&mut source).map_err(|_| anyhow!("the source has too few words"))?;
    println!(rt; "drew a key of 8 words")?;
    if let Err(fault) = source.draw() {
        println!(rt; "a ninth word: {fault}")?;
    }
    let siv = Siv::new(key);
    let sealed = seal(rt, &siv, &plan)?;
    open(rt, &siv, &sealed)?;
    refuse_damaged(rt, &siv, sealed)?;
    keep_keyset(rt)
}

fn main(rt: HostRuntime) -> anyhow::Result<()> {
    run(&rt)
}
