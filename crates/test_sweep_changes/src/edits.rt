//! Calls that change a tree.
use std::alloc::Global;
use test_sweep::{
    Call, When, delimiter, flat_tree, handed_back, header, judge, long_list, long_tree, plus,
    plus_list, punct, tree_of,
};
use tt::{
    DelimiterKind, ErasedFileAstId, Leaf, Spacing, TokenTree, TopSubtree, TransformTtAction,
    TtFault, transform_tt,
};

/// How that call of the group ended.
pub fn judged<R: Print>(rt: &R, alloc: Global, call: &str) -> Result<&'static str, TtFault> {
    let mut trees = trees(alloc, call)?;
    let [tree, before, after, put] = trees.as_mut_slice() else {
        return Err(TtFault::NoSuchPlace);
    };
    let mut call = Editing {
        call,
        alloc,
        tree,
        before,
        after,
        put,
    };
    Ok(judge(rt, &mut call))
}

// The long tree, a copy of it, what the call makes of it, and the trees that calls put. A list of trees is let go in one
// step, and each tree in many.
fn trees(alloc: Global, call: &str) -> Result<Vec<TopSubtree>, TtFault> {
    let mut trees = Vec::new(alloc);
    trees.push(long_tree(alloc)?)?;
    trees.push(long_tree(alloc)?)?;
    trees.push(tree_of(alloc, edited(alloc, call)?)?)?;
    trees.push(flat_tree(alloc, &minuses())?)?;
    Ok(trees)
}

// By how much each id is changed.
const SHIFT: u32 = 100;

// The place of the last token of the tree, a plus.
const LAST: usize = 24;

// The place of the first bracket, and the id that its two spans get if they become one.
const FIRST: usize = 1;

const JOINED: u32 = 2 + SHIFT;

// What is put for the last plus, and twice for each plus.
fn minus() -> Leaf {
    punct('-', Spacing::Alone, 0)
}

fn minuses() -> [Leaf; 2] {
    [minus(), minus()]
}

// The list of the tree that the call makes.
fn edited(alloc: Global, call: &str) -> Result<Vec<TokenTree>, TtFault> {
    let mut list = match call {
        "set_token" => plus_list(alloc)?,
        "change_every_ast_id" | "change_every_ast_id_joined" => {
            long_list(alloc, 1 + SHIFT, &[plus(0)])?
        }
        "transform_tt" => long_list(alloc, 1, &minuses())?,
        _ => return Err(TtFault::NoSuchPlace),
    };
    let place = match call {
        "set_token" => LAST,
        "change_every_ast_id_joined" => FIRST,
        _ => return Ok(list),
    };
    if let Some(token) = list.get_mut(place) {
        *token = changed(call);
    }
    Ok(list)
}

// The token that such a call changes: the last one becomes a minus, or the first bracket has one id.
fn changed(call: &str) -> TokenTree {
    match call {
        "set_token" => minus().into(),
        _ => header(delimiter(DelimiterKind::Bracket, JOINED, JOINED), 2),
    }
}

// A call that changes a tree, the tree before and after it, and the trees that it puts.
#[derive(Drop)]
struct Editing<'a> {
    call: &'a str,
    alloc: Global,
    tree: &'a mut TopSubtree,
    before: &'a TopSubtree,
    after: &'a TopSubtree,
    put: &'a TopSubtree,
}

impl Call for Editing<'_> {
    fn make(&mut self) -> Result<bool, TtFault> {
        match self.call {
            "set_token" => self.set_token(),
            "change_every_ast_id" => self.change_ids(false),
            "change_every_ast_id_joined" => self.change_ids(true),
            "transform_tt" => self.transform(),
            _ => Ok(false),
        }
    }

    fn is_left(&self, when: When) -> Result<bool, TtFault> {
        match when {
            When::Refused => Ok(*self.tree == *self.before),
            When::Done => Ok(*self.tree == *self.after),
        }
    }
}

impl Editing<'_> {
    fn set_token(&mut self) -> Result<bool, TtFault> {
        match self.tree.set_token(self.alloc, LAST, minus()) {
            Ok(()) => Ok(true),
            Err(refused) => handed_back(refused, &minus()),
        }
    }

    // The callback gets the first ids of the table, and all of them if the call succeeds.
    fn change_ids(&mut self, joins: bool) -> Result<bool, TtFault> {
        let mut rest = self.before.span_part_table();
        let mut in_order = true;
        let changed = self.tree.change_every_ast_id(self.alloc, |id| {
            match rest.split_first() {
                Some((part, others)) if part.anchor.ast_id == id => rest = others,
                _ => in_order = false,
            }
            new_id(joins, id)
        });
        asked(changed, in_order, rest.is_empty())
    }

    // The call shows the first tokens of the tree, and all of them if it succeeds.
    fn transform(&mut self) -> Result<bool, TtFault> {
        let mut rest = self.before.as_token_trees().iter_flat_tokens();
        let mut in_order = true;
        let put = self.put.token_trees();
        let changed = transform_tt(self.alloc, self.tree, |token| {
            if rest.next().as_ref() != Some(token) {
                in_order = false;
            }
            match token {
                TokenTree::Leaf(Leaf::Punct(_)) => TransformTtAction::ReplaceWith(put),
                _ => TransformTtAction::Keep,
            }
        });
        asked(changed, in_order, rest.next().is_none())
    }
}

// The id that replaces an id. Those of the top and of the pluses stay.
fn new_id(joins: bool, id: ErasedFileAstId) -> ErasedFileAstId {
    match (joins, id.0) {
        (_, 0) => id,
        (true, 1) => ErasedFileAstId(JOINED),
        (_, number) => ErasedFileAstId(number.saturating_add(SHIFT)),
    }
}

// A call must ask its callback in order, and in full if it succeeds.
fn asked(changed: Result<(), TtFault>, in_order: bool, in_full: bool) -> Result<bool, TtFault> {
    if !in_order {
        return Ok(false);
    }
    match changed {
        Ok(()) => Ok(in_full),
        Err(fault) => Err(fault),
    }
}
