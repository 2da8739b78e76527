use ng_space::{Book, Image};
use ng_terms::{Items, Reply};

/// How a heap ended: its last words, the books of its hands, and the replies to the ops of each log.
#[derive(Drop)]
pub struct Closed {
    pub image: Image,
    pub books: Items<Book>,
    pub replies: Items<Items<Reply>>,
}
