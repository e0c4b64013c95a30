// What a call came to.

#[derive(Drop)]
pub struct Answer {
    // one line, or for `list` a line a node
    pub text: String,
    // all words of the working memory that was lent are 0
    pub memory_zero: bool,
    // nothing changed that the call leaves alone
    pub others_kept: bool,
}

impl Answer {
    // To a call that is lent no working memory and changes nothing.
    pub fn plain(text: String) -> Answer {
        Answer {
            text,
            memory_zero: true,
            others_kept: true,
        }
    }
}
