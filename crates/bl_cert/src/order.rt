//! The nodes of a search in preorder.
ghost use Rattle.std.specs.Prelude.{◌≡◌, ◌++◌, reverse, IfOk, OnOk};
ghost use Rattle.bl_book_terms.specs.Books.{IsFinished};
ghost use Rattle.bl_cert.specs.Order.{IsPreorder};
ghost use Rattle.bl_cert.specs.Order.{halves_of};

use bl_core::Book;
use std::alloc::{AllocError, Global};

/// Puts the halves of a node that is split on a stack, the low one on top.
fn push_halves(book: &Book, node: u32, stack: &mut Vec<u32>) -> Result<(), AllocError>
    ensures { OnOk result (reverse stack.new.items ≡ halves_of book.now.ledger.book node ++ reverse stack.old.items) }
{
    if let Some((_, low, high)) = book.split_of(node) {
        stack.push(high)?;
        stack.push(low)?;
    }
    Ok(())
}

/// The numbers of the nodes of a finished search in preorder.
pub(crate) fn preorder(alloc: Global, book: &Book) -> Result<Vec<u32>, AllocError>
    requires { IsFinished book.now.ledger.book }
    ensures { IfOk result (λ order. IsPreorder book.now.ledger.book order.items) }
{
    let _kept = book.model();
    let mut order = Vec::with_capacity(alloc, book.made() as usize)?;
    let mut stack = Vec::new(alloc);
    stack.push(0)?;
    while let Some(node) = stack.pop() {
        push_halves(book, node, &mut stack)?;
        order.push(node)?;
    }
    Ok(order)
}
