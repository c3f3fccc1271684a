// How far the answer to an order has come.

#[derive(Clone, Copy)]
pub enum Stage {
    // the status is due
    Awaiting,
    // the status is in: its data words are due, or the silence behind them
    Reply,
    // the last status is due
    AwaitingLast,
    // the last status is in: silence is due
    Ended,
}

#[derive(Clone, Copy)]
pub struct Exchange {
    pub stage: Stage,
    // data words of the reply
    pub taken: u16,
    // a bit besides the address was set in a status
    pub mark: bool,
}
