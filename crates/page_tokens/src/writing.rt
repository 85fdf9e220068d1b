//! The texts of tokens.

ghost use Rattle.std.specs.Prelude.{◌≡◌, ◌+◌, ◌≤◌, ◌++◌, length, option_map, vec_capacity, vec_len};
ghost use Rattle.page_tokens.specs.Forms.{token_text};
ghost use Rattle.page_tokens.specs.Starts.{start_text};

use cutset_lister::write_token;
use fault_system::FaultSystem;

/// Adds the token that names the set after which a page begins, or that it begins before all sets, to a buffer that has room for it:
/// `v2:`, the digits of the key of what the page is asked of, `:`, and the text of the set, or `start`.
pub fn put_page_token(system: &FaultSystem, key: &[u8; 64], after: Option<&[u32]>, to: &mut Vec<u8>)
    requires { vec_len to.old + length (token_text key.now (start_text system.now (option_map (λ set. set.now) after))) ≤ vec_capacity to.old }
    ensures text { to.new.items ≡ to.old.items ++ token_text key.now (start_text system.now (option_map (λ set. set.now) after.entry)) }
    ensures room { vec_capacity to.old ≤ vec_capacity to.new }
{
    put_bytes(b"v2:", to);
    put_bytes(key, to);
    put_bytes(b":", to);
    put_start(system, after, to);
}

fn put_bytes(bytes: &[u8], to: &mut Vec<u8>)
    requires { vec_len to.old + length bytes.now ≤ vec_capacity to.old }
    ensures text { to.new.items ≡ to.old.items ++ bytes.now }
    ensures room { vec_capacity to.old ≤ vec_capacity to.new }
{
    to.extend_from_slice(bytes).unwrap();
}

/// Adds the text of a set, or `start`, to a buffer that has room for it.
fn put_start(system: &FaultSystem, after: Option<&[u32]>, to: &mut Vec<u8>)
    requires { vec_len to.old + length (start_text system.now (option_map (λ set. set.now) after)) ≤ vec_capacity to.old }
    ensures text { to.new.items ≡ to.old.items ++ start_text system.now (option_map (λ set. set.now) after.entry) }
    ensures room { vec_capacity to.old ≤ vec_capacity to.new }
{
    match after {
        None => put_bytes(b"start", to),
        Some(set) => write_token(system, set, to).unwrap(),
    }
}
