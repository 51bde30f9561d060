// The word for each order, as lists of calls have it.
ghost use Rattle.matrix.specs.Words.{Named};
ghost use Rattle.matrix.specs.Orders.{order_word};

use crate::shape::Order;
use std::str::FromStr;

// A word that names no order.
#[derive(Clone, Copy, PartialEq, Eq)]
pub struct NoOrder;

impl FromStr for Order {
    type Err = NoOrder;

    ghost from_str_gives = { Named order_word };

    fn from_str(word: &str) -> Result<Order, NoOrder> {
        match word {
            "row-major" => Ok(Order::RowMajor),
            "column-major" => Ok(Order::ColumnMajor),
            _ => Err(NoOrder),
        }
    }
}
