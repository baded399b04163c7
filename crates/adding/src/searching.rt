// The first key whose selection makes a target sure: by how many edges, then by the selection's number.
ghost use Rattle.std.specs.Prelude.{◌≡◌, ◌+◌, ◌≤◌, length};
ghost use Rattle.cases.specs.Rows.{case_in, CaseIn};
ghost use Rattle.lookups.specs.Edges.{set_words};
ghost use Rattle.semantics.specs.Adding.{key_count};
ghost use Rattle.adding.specs.Deciding.{Tabled, KeyAsked, case_asked, sure_over};
ghost use Rattle.adding.specs.Searching.{Searchable, SelectionsOf, BaseLaid, first_sure_below};

use crate::asked::Asked;
use crate::deciding::verdict;
use crate::touching::touched_paths;
use bitset::words::without;
use cases::command::Target;
use cases::counts::Counts;
use fillers::table::is_small;
use kernel::preparing::{lay_links, lay_sets};
use semantics::value::Value;

// The selections of so many candidates.
pub fn selection_count(candidates: usize) -> usize
    requires { candidates ≤ 12 }
    ensures { SelectionsOf candidates result }
{
    1usize << candidates
}

// Whether the key's selection has as many edges as the key says and makes the target sure.
fn is_sure(asked: &Asked, key: usize, rows: &mut [u16], tables: &mut [u64]) -> bool
    requires { Tabled asked.now rows.old tables.old }
    ensures { KeyAsked asked.now key result rows.new tables.new }
{
    let selections = selection_count(asked.list.len() / 5);
    let selection = key % selections;
    if selection.count_ones() as usize != key / selections {
        return false;
    }
    verdict(asked, selection, rows, tables) == Value::VALID
}

// The first such key.
fn first_key(asked: &Asked, rows: &mut [u16], tables: &mut [u64]) -> Option<usize>
    requires { Tabled asked.now rows.old tables.old }
    ensures { result ≡ first_sure_below (key_count asked.now.list.now) (sure_over (case_asked asked.now) asked.now.pair asked.now.list.now) }
{
    let candidates = asked.list.len() / 5;
    let keys = (candidates + 1) * selection_count(candidates);
    // no key below this one is it
    for key in 0..keys {
        if is_sure(asked, key, rows, tables) {
            return Some(key);
        }
    }
    None
}

// Puts into the tables what no candidate touches, and answers the paths whose sets of nodes stay as they are.
fn lay_base(counts: Counts, slice: &[u16], list: &[u8], tables: &mut [u64]) -> u64
    requires case_in { CaseIn counts slice.now }
    requires counts_in_bounds { 769 + set_words counts ≤ length tables.old }
    ensures { BaseLaid counts slice.now list.now result tables.new }
{
    let made = lay_sets(counts, slice, 0, tables);
    lay_links(counts, slice, tables);
    without(made, touched_paths(counts, slice, list))
}

// The first key, by a table of so many words.
fn search_with<const N: usize>(
    counts: Counts,
    pair: Target,
    slice: &[u16],
    list: &[u8],
) -> Option<usize>
    requires searchable { Searchable counts pair slice.now list.now }
    requires room { 769 + set_words counts ≤ N }
    requires words_bound { N ≤ 66313 }
    ensures { result ≡ first_sure_below (key_count list.now) (sure_over (case_in counts slice.now) pair list.now) }
{
    let mut rows = [0u16; 5360];
    let mut tables = [0u64; N];
    rows.copy_from_slice(&slice[..5360]);
    let held = lay_base(counts, slice, list, &mut tables);
    let asked = Asked {
        counts,
        slice,
        pair,
        list,
        held,
    };
    first_key(&asked, &mut rows, &mut tables)
}

// The same, by the small table or the wide one.
pub fn search(counts: Counts, pair: Target, slice: &[u16], list: &[u8]) -> Option<usize>
    requires { Searchable counts pair slice.now list.now }
    ensures { result ≡ first_sure_below (key_count list.now) (sure_over (case_in counts slice.now) pair list.now) }
{
    if is_small(counts) {
        search_with::<4873>(counts, pair, slice, list)
    } else {
        search_with::<66313>(counts, pair, slice, list)
    }
}
