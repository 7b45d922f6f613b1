mod adj;
mod due;
mod loc;
mod side_by_side;
mod sorted;
mod trie;
mod walk;
