// J1 of a transaction.
use crate::canonical::explain_transaction_bytes;
use crate::page::Page;
use crate::transaction::push_rule;
use std::alloc::Global;

/// The page of bytes that are no canonical transaction. None where memory is wanted.
pub fn page_of_bytes(alloc: Global, item: &[u8]) -> Option<String> {
    let mut page = Page::new(alloc);
    push_rule(&mut page, 1);
    explain_transaction_bytes(&mut page, item);
    page.into_text()
}
