// The page's lines one from the other, where there is one head line: its turn alone changes the head index.

#![tactic(auto)]

pub mod marks;
pub mod order;
pub mod sheet;
pub mod stretch;
pub mod tell;
pub mod turn;
