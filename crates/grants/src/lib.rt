// Registers and constants that an instruction names directly, and which of them a card and a clause's modes grant.
//
// Rules 7, 9 and 15 of document 01 ask this, and so does the claim about the walk: specs/Grants.antt says it once for all of them.
#![tactic(auto)]

ghost use Rattle.std.specs.Prelude.{◌≡◌};
ghost use Rattle.grants.specs.Grants.{register, alu_register, granted, all_granted, source_names, locked};

// The card's figures, and the two modes of an ALU clause's opener (any number where there is none).
#[derive(Clone, Copy, Debug, PartialEq, Eq)]
pub struct Limits {
    pub gprs: u32,
    pub temps: u32,
    pub consts: u32,
    pub mode0: u32,
    pub mode1: u32,
}

// A register named by an export or a fetch.
pub fn register_granted(limits: Limits, r: u32) -> bool
    ensures { result ≡ granted limits (register r) }
{
    r < limits.gprs
}

// A register named by an ALU instruction, to which the clause temporaries are granted too, down from register 127.
pub fn alu_register_granted(limits: Limits, r: u32) -> bool
    ensures { result ≡ granted limits (alu_register r) }
{
    (r < limits.gprs) | (128 <= r as usize + limits.temps as usize)
}

// How many constants of a set its mode locks.
pub fn locked_by(mode: u32) -> u32
    ensures { result ≡ locked mode }
{
    match mode {
        0 => 0,
        1 => 16,
        _ => 32,
    }
}

// What a source of an ALU instruction names, by its number: a test for each kind, of which at most one can hold. No branch goes by the
// kind, since a pack mixes them and none could be foreseen; what the limits alone decide leaves the loop over a clause.
pub fn source_granted(limits: Limits, s: u32) -> bool
    ensures { result ≡ all_granted limits (source_names s) }
{
    let source = s as usize;
    let register = source < (limits.gprs as usize).min(128);
    let temporary = (128usize.saturating_sub(limits.temps as usize) <= source) & (source < 128);
    let in_set0 = (128 <= source) & (source < 128 + locked_by(limits.mode0) as usize);
    let in_set1 = (160 <= source) & (source < 160 + locked_by(limits.mode1) as usize);
    let inline = (192 <= source) & (source < 256);
    let constant = (256 <= source) & (source < 256 + limits.consts as usize);
    (register | temporary) | ((in_set0 | in_set1) | (inline | constant))
}
