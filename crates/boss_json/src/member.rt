ghost use Rattle.std.specs.Prelude.{◌≡◌, bytes_eq, option_map, length};
ghost use Rattle.json.specs.Find.{get_member};
ghost use Rattle.json.specs.Value.{members_view, value_view};
ghost use Rattle.boss_json.specs.Trees.{tree_json, trees_under};

use crate::tree::Tree;
use json::Value;

/// What stands under a key of an object's members; of equal keys the last counts.
pub(crate) fn member_under<'v, 'a>(
    members: &'v Vec<(&'a str, Value<'a>)>,
    key: &str,
) -> Option<&'v Value<'a>>
    ensures { option_map (λ value. value_view value.now) result ≡ get_member key.now (members_view members.now.items) }
{
    let mut left = members.len();
    while left > 0 {
        left -= 1;
        let member = &members[left];
        if is_key(member.0.as_bytes(), key.as_bytes()) {
            return Some(&member.1);
        }
    }
    None
}

/// The same of the members of an object that is spelled compactly.
#[inline(always)]
pub(crate) fn bytes_under<'v, 'a>(
    members: &'v [(&'a [u8], Tree<'a>)],
    key: &[u8],
) -> Option<&'v Tree<'a>>
    ensures { option_map (λ tree. tree_json tree.now) result ≡ get_member key.now (trees_under members.now) }
{
    let mut left = members.len();
    while left > 0 {
        left -= 1;
        let member = &members[left];
        if is_key(member.0, key) {
            return Some(&member.1);
        }
    }
    None
}

/// Whether a text is this key. Nearly all others show that by their length, or at one of their ends.
#[inline(always)]
fn is_key(text: &[u8], key: &[u8]) -> bool
    ensures { result ≡ bytes_eq text.now key.now }
{
    text.len() == key.len() && are_same(text, key)
}

/// Whether bytes are the same as others that are as many. Their ends are compared first, since most that differ do so there.
#[inline(always)]
#[tactic(auto, using(crate::proofs::Ends::ends_differ, crate::proofs::Ends::ends_same))]
fn are_same(bytes: &[u8], other: &[u8]) -> bool
    requires { length bytes.now ≡ length other.now }
    ensures { result ≡ bytes_eq bytes.now other.now }
{
    let count = other.len();
    if count == 0 {
        return true;
    }
    if bytes[0] != other[0] || bytes[count - 1] != other[count - 1] {
        return false;
    }
    are_same_throughout(bytes, other)
}

/// The same, a byte at a time. A key is short and mostly known where this is compiled, so that no loop is left of it.
#[inline(always)]
#[tactic(auto, using(crate::proofs::Ends::ends_differ))]
fn are_same_throughout(bytes: &[u8], other: &[u8]) -> bool
    requires { length bytes.now ≡ length other.now }
    ensures { result ≡ bytes_eq bytes.now other.now }
{
    let mut at = 0;
    while at < other.len() {
        if bytes[at] != other[at] {
            return false;
        }
        at += 1;
    }
    true
}
