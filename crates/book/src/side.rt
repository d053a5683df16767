// "A caller may ask for one side's resting orders: the answer is the queue asked for, as a part of whichever lent area holds
// it." A call for users: it answers on anything.
ghost use Rattle.std.specs.Prelude.{◌≡◌};
ghost use Rattle.rules.specs.Side.{side_words};

// The words of a side's queue, seven for each order. `contract` is the contract's number; `contracts` and `count` are the state's
// counts of contracts and of that side's orders.
pub fn side<'a>(
    buys: &'a [u32],
    sells: &'a [u32],
    sell: bool,
    contract: usize,
    contracts: usize,
    count: usize,
) -> &'a [u32]
    ensures { result.now ≡ side_words buys.now sells.now sell contract contracts count }
{
    let area = if sell { sells } else { buys };
    if contract == 0
        || contract > contracts
        || contract > rules::MAX_CONTRACTS
        || count > rules::MAX_RESTING
    {
        return &area[..0];
    }
    let a = rules::QUEUE_STRIDE * (contract - 1);
    let e = a + rules::ORDER_STRIDE * count;
    if e > area.len() {
        return &area[..0];
    }
    &area[a..e]
}
