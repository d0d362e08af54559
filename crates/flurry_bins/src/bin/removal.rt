//! Removal from a red-black tree.
ghost use Rattle.std.specs.Prelude.{◌≡◌, IsSome};
ghost use Rattle.std.specs.Option.{option_map};
ghost use Rattle.flurry_bins.specs.Chain.{entry_of};
ghost use Rattle.flurry_bins.specs.Tree.{shape, node_shape};
ghost use Rattle.flurry_bins.specs.Removal.{short_left, short_right, fix_left, fix_right, mended_left, mended_right, IsOutOf, join_of, tree_removal, tree_entry};

use super::node::{BoxedNode, Colour, Link, Node};
use super::tree::{blacken, has_red_root, link_children, take_children};
use flurry_base::query::Query;
use std::alloc::Allocator;
use std::cmp::Ordering;

// Makes a tree of `node`, whose left side is short, and of the black node `other` on its right, whose sides are `near` and `far`. Returns
// the tree, and whether it is short.
fn with_deficit_left<K: Drop, V: Drop, A: Allocator>(
    colour: Colour,
    left: Link<K, V, A>,
    node: BoxedNode<K, V, A>,
    near: Link<K, V, A>,
    other: BoxedNode<K, V, A>,
    far: Link<K, V, A>,
) -> (BoxedNode<K, V, A>, bool)
    ensures { (node_shape result.0.value, result.1)
        ≡ short_left colour (shape left) (entry_of node.value) (shape near) (entry_of other.value) (shape far) }
{
    if has_red_root(&far) {
        let node = link_children(Colour::Black, left, node, near);
        return (
            link_children(colour, Some(node), other, blacken(far)),
            false,
        );
    }
    if has_red_root(&near) {
        let Some(near) = near else { unreachable!() };
        let (a, near, b) = take_children(near);
        let node = link_children(Colour::Black, left, node, a);
        let other = link_children(Colour::Black, b, other, far);
        return (link_children(colour, Some(node), near, Some(other)), false);
    }
    let other = link_children(Colour::Red, near, other, far);
    (
        link_children(Colour::Black, left, node, Some(other)),
        colour == Colour::Black,
    )
}

// Makes a tree of `node` and its sides, of which the left one is short. Returns the tree, and whether it is short.
fn fix_left<K: Drop, V: Drop, A: Allocator>(
    colour: Colour,
    left: Link<K, V, A>,
    node: BoxedNode<K, V, A>,
    right: Link<K, V, A>,
) -> (BoxedNode<K, V, A>, bool)
    ensures { (node_shape result.0.value, result.1) ≡ fix_left colour (shape left) (entry_of node.value) (shape right) }
{
    let Some(right) = right else {
        return (link_children(colour, left, node, None), false);
    };
    let right_colour = right.colour;
    let (near, right, far) = take_children(right);
    if right_colour == Colour::Black {
        return with_deficit_left(colour, left, node, near, right, far);
    }
    let Some(near) = near else {
        let right = link_children(Colour::Red, None, right, far);
        return (link_children(colour, left, node, Some(right)), false);
    };
    let (a, near, b) = take_children(near);
    let (low, _) = with_deficit_left(Colour::Red, left, node, a, near, b);
    (link_children(Colour::Black, Some(low), right, far), false)
}

// Mends a tree in place whose left side is short if `short` is `true`, and returns whether the tree is then short itself. If the side is
// not short, nothing is written.
fn settle_left<K: Drop, V: Drop, A: Allocator>(short: bool, root: &mut Link<K, V, A>) -> bool
    ensures { (shape root.new, result) ≡ mended_left short (shape root.old) }
{
    if !short {
        return false;
    }
    let Some(node) = root.take() else {
        return false;
    };
    let colour = node.colour;
    let (left, node, right) = take_children(node);
    let (node, short) = fix_left(colour, left, node, right);
    *root = Some(node);
    short
}

// Makes a tree of `node`, whose right side is short, and of the black node `other` on its left, whose sides are `far` and `near`. Returns
// the tree, and whether it is short.
fn with_deficit_right<K: Drop, V: Drop, A: Allocator>(
    colour: Colour,
    far: Link<K, V, A>,
    other: BoxedNode<K, V, A>,
    near: Link<K, V, A>,
    node: BoxedNode<K, V, A>,
    right: Link<K, V, A>,
) -> (BoxedNode<K, V, A>, bool)
    ensures { (node_shape result.0.value, result.1)
        ≡ short_right colour (shape far) (entry_of other.value) (shape near) (entry_of node.value) (shape right) }
{
    if has_red_root(&far) {
        let node = link_children(Colour::Black, near, node, right);
        return (
            link_children(colour, blacken(far), other, Some(node)),
            false,
        );
    }
    if has_red_root(&near) {
        let Some(near) = near else { unreachable!() };
        let (a, near, b) = take_children(near);
        let node = link_children(Colour::Black, b, node, right);
        let other = link_children(Colour::Black, far, other, a);
        return (link_children(colour, Some(other), near, Some(node)), false);
    }
    let other = link_children(Colour::Red, far, other, near);
    (
        link_children(Colour::Black, Some(other), node, right),
        colour == Colour::Black,
    )
}

// Makes a tree of `node` and its sides, of which the right one is short. Returns the tree, and whether it is short.
fn fix_right<K: Drop, V: Drop, A: Allocator>(
    colour: Colour,
    left: Link<K, V, A>,
    node: BoxedNode<K, V, A>,
    right: Link<K, V, A>,
) -> (BoxedNode<K, V, A>, bool)
    ensures { (node_shape result.0.value, result.1)
        ≡ fix_right colour (shape left) (entry_of node.value) (shape right) }
{
    let Some(left) = left else {
        return (link_children(colour, None, node, right), false);
    };
    let left_colour = left.colour;
    let (far, left, near) = take_children(left);
    if left_colour == Colour::Black {
        return with_deficit_right(colour, far, left, near, node, right);
    }
    let Some(near) = near else {
        let left = link_children(Colour::Red, far, left, None);
        return (link_children(colour, Some(left), node, right), false);
    };
    let (a, near, b) = take_children(near);
    let (low, _) = with_deficit_right(Colour::Red, a, near, b, node, right);
    (link_children(Colour::Black, far, left, Some(low)), false)
}

// Mends a tree in place whose right side is short if `short` is `true`, and returns whether the tree is then short itself. If the side is
// not short, nothing is written.
fn settle_right<K: Drop, V: Drop, A: Allocator>(short: bool, root: &mut Link<K, V, A>) -> bool
    ensures { (shape root.new, result) ≡ mended_right short (shape root.old) }
{
    if !short {
        return false;
    }
    let Some(node) = root.take() else {
        return false;
    };
    let colour = node.colour;
    let (left, node, right) = take_children(node);
    let (node, short) = fix_right(colour, left, node, right);
    *root = Some(node);
    short
}

// Removes the first node of a tree in place. Returns the node, and whether the tree is then short.
fn take_least<K: Drop, V: Drop, A: Allocator>(
    root: &mut Link<K, V, A>,
) -> (BoxedNode<K, V, A>, bool)
    requires { IsSome root.old }
    ensures { IsOutOf (shape root.old)
        (record { rest = shape root.new; least = entry_of result.0.value; short = result.1 }) }
{
    let Some(top) = root else { unreachable!() };
    if top.left.is_some() {
        let (least, short) = take_least(&mut top.left);
        return (least, settle_left(short, root));
    }
    let Some(node) = root.take() else {
        unreachable!()
    };
    let colour = node.colour;
    let (_, node, right) = take_children(node);
    let short = colour == Colour::Black && !has_red_root(&right);
    *root = blacken(right);
    (node, short)
}

// Joins what was left and right of a removed node into one tree. Returns the tree, and whether it is short.
fn join_sides<K: Drop, V: Drop, A: Allocator>(
    colour: Colour,
    left: Link<K, V, A>,
    mut right: Link<K, V, A>,
) -> (Link<K, V, A>, bool)
    ensures { (shape result.0, result.1) ≡ join_of colour (shape left) (shape right) }
{
    if right.is_none() {
        let short = colour == Colour::Black && !has_red_root(&left);
        return (blacken(left), short);
    }
    let (least, short) = take_least(&mut right);
    let mut root = Some(link_children(colour, left, least, right));
    let short = settle_right(short, &mut root);
    (root, short)
}

// Removes the node of `hash` and `key` from a tree in place. Returns the node, or `None` if there is none, and whether the tree is then
// short.
pub(crate) fn remove_in<Q: Query<K>, K: Ord + Drop, V: Drop, A: Allocator>(
    root: &mut Link<K, V, A>,
    hash: u64,
    key: Q,
) -> (Link<K, V, A>, bool)
    ensures tree { (shape root.new, result.1) ≡ tree_removal K.cmp hash (Q.stands_for key) (shape root.old) }
    ensures node { option_map (λ b. entry_of b.value) result.0
        ≡ tree_entry K.cmp hash (Q.stands_for key) (shape root.old) }
{
    let Some(top) = root else {
        return (None, false);
    };
    match top.entry.compare_place(hash, key) {
        Ordering::Less => {
            let (node, short) = remove_in(&mut top.left, hash, key);
            (node, settle_left(short, root))
        }
        Ordering::Equal => {
            let Some(node) = root.take() else {
                unreachable!()
            };
            let colour = node.colour;
            let (left, node, right) = take_children(node);
            let (rest, short) = join_sides(colour, left, right);
            *root = rest;
            (Some(node), short)
        }
        Ordering::Greater => {
            let (node, short) = remove_in(&mut top.right, hash, key);
            (node, settle_right(short, root))
        }
    }
}
