// LOAD's reader of keypair templates (RULES 9.4), for P1 01 and 02.
// Every length is in bytes.
// Proved: exactly the templates that the definition describes are accepted, and WALK accepts each of them.
#![tactic(auto)]

ghost use Rattle.std.specs.Prelude.{◌≡◌};
ghost use Rattle.template_keypair.specs.Keypair.{private_fields, keypair, exactly};

use template_rules::{TAG_PUBLIC_KEY, begins_with, read_head};

pub const TAG_KEYPAIR: u8 = 0xA1;

pub const TAG_PRIVATE_KEY: u8 = 0x81;

pub const TAG_CHAIN_CODE: u8 = 0x82;

pub const PUBLIC_KEY_BYTES: usize = 65;

pub const PRIVATE_KEY_BYTES: usize = 32;

pub const CHAIN_CODE_BYTES: usize = 32;
// Each of these lengths has a head of 2 bytes.
pub const HEAD_BYTES: usize = 2;

// Whether s is a private key, with a chain code after it exactly where one is asked for, and nothing else.
fn is_private(s: &[u8], chain: bool) -> bool
    ensures { result ≡ exactly (private_fields chain) s.now }
{
    if !begins_with(s, TAG_PRIVATE_KEY, PRIVATE_KEY_BYTES) {
        return false;
    }
    let rest = &s[HEAD_BYTES + PRIVATE_KEY_BYTES..];
    if !chain {
        return rest.len() == 0;
    }
    if !begins_with(rest, TAG_CHAIN_CODE, CHAIN_CODE_BYTES) {
        return false;
    }
    rest.len() == HEAD_BYTES + CHAIN_CODE_BYTES
}

// Whether LOAD takes s as a keypair template: with a chain code for P1 02, without for P1 01.
pub fn is_keypair(s: &[u8], chain: bool) -> bool
    ensures { result ≡ keypair chain s.now }
{
    let Some(head) = read_head(s) else {
        return false;
    };
    if s[0] != TAG_KEYPAIR {
        return false;
    }
    if head.value_bytes != s.len() - head.head_bytes {
        return false;
    }
    let value = &s[head.head_bytes..];
    if begins_with(value, TAG_PUBLIC_KEY, PUBLIC_KEY_BYTES) {
        return is_private(&value[HEAD_BYTES + PUBLIC_KEY_BYTES..], chain);
    }
    is_private(value, chain)
}
