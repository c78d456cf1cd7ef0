//! Items of a `with` from their parts (Language Reference 8.5).

ghost use Rattle.std.specs.Prelude.{◌≡◌, false, ◌∷◌, [], ◌↔◌, reverse, length, map, IfOk, IsTrue};
ghost use Rattle.pt_wide.specs.Fold.{exp_of, opt_exp};
ghost use Rattle.pt_parser.specs.Limits.{FitsExp};
ghost use Rattle.pt_parser.specs.Parts.{Each};
ghost use Rattle.pt_parser.specs.With.{item_of};
ghost use Rattle.pt_parser.specs.WithLeft.{plain_item, plain_items as items_of_plain, whole as whole_exp};
ghost use Rattle.pt_parser.specs.Views.{item_in};

use crate::nodes::unboxed;
use crate::reader::MAX_DEPTH;
use pt_base::{Boxed, Line, Memory, Seq};
use pt_grammar::deep::{Deep, Listed, Several};
use pt_grammar::display_nodes;
use pt_wide::{WideExpr, WideItem};
use std::alloc::Global;

/// The most items of a tuple.
pub(crate) const MAX_ITEMS: usize = 4096;

/// An item, which starts where its expression does.
#[tactic(auto, using(pt_grammar::proofs::LineLemmas::line_is))]
pub(crate) fn item(context: Boxed<WideExpr>, target: Option<Boxed<WideExpr>>) -> WideItem
    ensures { item_in result ≡ item_of (exp_of context) (opt_exp target) }
{
    let context = context.into_inner();
    WideItem {
        line: context.line,
        context,
        target: unboxed(target),
    }
}

/// An item without a target.
#[tactic(auto, using(pt_grammar::proofs::LineLemmas::line_is))]
fn plain(context: WideExpr) -> WideItem
    ensures { item_in result ≡ plain_item (exp_of context) }
{
    WideItem {
        line: context.line,
        context,
        target: None,
    }
}

/// Items without targets, from the last to the first.
fn backwards(alloc: Global, contexts: Seq<WideExpr>) -> Result<Seq<WideItem>, Memory>
    ensures { IfOk result (λ s. map item_in s ≡ reverse (items_of_plain (map exp_of contexts))) }
{
    let mut left = contexts;
    let mut turned = Seq::new(alloc);
    'turn: while let Some(last) = left.pop() {
        turned.push(plain(last))?;
    }
    Ok(turned)
}

/// The same items from the last to the first.
#[tactic(auto, using(pt_grammar::proofs::ClauseLemmas::turn_one))]
fn forwards(alloc: Global, items: Seq<WideItem>) -> Result<Seq<WideItem>, Memory>
    ensures { IfOk result (λ s. s ≡ reverse items) }
{
    let mut left = items;
    let mut turned = Seq::new(alloc);
    'turn: while let Some(last) = left.pop() {
        turned.push(last)?;
    }
    Ok(turned)
}

/// Items without targets.
pub(crate) fn plain_items(alloc: Global, contexts: Seq<WideExpr>) -> Result<Seq<WideItem>, Memory>
    ensures { IfOk result (λ s. map item_in s ≡ items_of_plain (map exp_of contexts)) }
{
    let turned = backwards(alloc, contexts)?;
    let items = forwards(alloc, turned)?;
    Ok(items)
}

/// Whether it is one expression without a comma behind it.
fn is_single(listed: &Listed) -> bool
    ensures { IsTrue result ↔ ((listed.now.comma ≡ false) × (length listed.now.items.items ≡ 1)) }
{
    !listed.comma && listed.items.items.len() == 1
}

/// Whether expressions that are within the limits are so as one, too.
pub(crate) fn is_within(start: Line, listed: &Listed) -> bool
    requires { Each FitsExp (map exp_of listed.now.items.items) }
    ensures { IsTrue result ↔ FitsExp (whole_exp start.0 (map exp_of listed.now.items.items) listed.now.comma) }
{
    is_single(listed) || (listed.items.depth < MAX_DEPTH && listed.items.items.len() <= MAX_ITEMS)
}

/// The only one.
fn single(alloc: Global, items: Several) -> Result<Deep, Memory>
    requires { length items.items ≡ 1 }
    ensures { IfOk result (λ e. exp_of e.tree ∷ [] ≡ map exp_of items.items) }
{
    let Several { mut items, depth } = items;
    let Some(tree) = items.pop() else {
        unreachable!()
    };
    let tree = Boxed::new(alloc, tree)?;
    Ok(Deep { tree, depth })
}

/// Expressions as one.
pub(crate) fn whole(alloc: Global, start: Line, listed: Listed) -> Result<Deep, Memory>
    requires { FitsExp (whole_exp start.0 (map exp_of listed.items.items) listed.comma) }
    ensures { IfOk result (λ e. exp_of e.tree ≡ whole_exp start.0 (map exp_of listed.items.items) listed.comma) }
{
    if is_single(&listed) {
        return single(alloc, listed.items);
    }
    display_nodes::tuple(alloc, start, listed.items)
}
