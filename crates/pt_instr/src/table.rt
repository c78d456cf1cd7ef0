// The instructions: number, name, operands, and what they take and give.
macro_rules! instructions {
    ($rows:ident, $of:tt, $free:tt) => {
        $rows! { $of
            0 Nop { values(0, 0) }
            1 Const(constant: ConstNo) { values(0, 1) }
            2 Local(slot: SlotNo) { values(0, 1) }
            3 SetLocal(slot: SlotNo) { values(1, 0) }
            4 DelLocal(slot: SlotNo) { values(0, 0) }
            5 Cell(slot: SlotNo) { values(0, 1) }
            6 SetCell(slot: SlotNo) { values(1, 0) }
            7 DelCell(slot: SlotNo) { values(0, 0) }
            8 Global(text: TextNo) { values(0, 1) }
            9 SetGlobal(text: TextNo) { values(1, 0) }
            10 DelGlobal(text: TextNo) { values(0, 0) }
            11 Name(text: TextNo) { values(0, 1) }
            12 SetName(text: TextNo) { values(1, 0) }
            13 DelName(text: TextNo) { values(0, 0) }
            14 PushCell(slot: SlotNo) { slots(none(), one(1, Kind::Cell)) }
            15 Pop { values(1, 0) }
            16 Copy { values(1, 2).keeping(1) }
            17 Copy2 { values(2, 4).keeping(2) }
            18 Swap { values(2, 2).swapping() }
            19 Rot3 { values(3, 3) }
            20 Attr(text: TextNo) { values(1, 1) }
            21 SetAttr(text: TextNo) { values(2, 0) }
            22 DelAttr(text: TextNo) { values(1, 0) }
            23 Item { values(2, 1) }
            24 SetItem { values(3, 0) }
            25 DelItem { values(2, 0) }
            26 Slice { values(3, 1) }
            27 Unary(operator: UnOp) { values(1, 1) }
            28 Not { values(1, 1) }
            29 Binary(operator: BinOp) { values(2, 1) }
            30 InPlace(operator: BinOp) { values(2, 1) }
            31 Compare(operator: CompareOp) { values(2, 1) }
            32 Tuple(n: u32) { values(n, 1) }
            33 List(n: u32) { values(n, 1) }
            34 Set(n: u32) { values(n, 1) }
            35 Dict(n: u32) { slots(two(n, Kind::Value, n, Kind::Value), one(1, Kind::Value)) }
            36 ListAdd(n: u32) { values(1, 0).above(n) }
            37 SetAdd(n: u32) { values(1, 0).above(n) }
            38 DictAdd(n: u32) { values(2, 0).above(n) }
            39 Format(conversion: Conversion) { values(2, 1) }
            40 Join(n: u32) { values(n, 1) }
            41 Unpack(n: u32) { values(1, n) }
            42 UnpackStar(n: u32, m: u32) { slots(one(1, Kind::Value), around(m, n)) }
            43 Spread { values(1, 1) }
            44 SpreadMap { values(1, 1) }
            45 Call(n: u32) { slots(two(1, Kind::Value, n, Kind::Value), one(1, Kind::Value)) }
            46 CallKw(n: u32, list: ListNo) { slots(two(1, Kind::Value, n, Kind::Value), one(1, Kind::Value)) }
            47 CallSpread(n: u32, list: ListNo) { slots(two(1, Kind::Value, n, Kind::Value), one(1, Kind::Value)) }
            48 MakeFunction(block: BlockId, n: u32, list: ListNo) { slots(two(n, Kind::Value, $free, Kind::Cell), one(1, Kind::Value)) }
            49 MakeClass(block: BlockId) { slots(two(1, Kind::Value, $free, Kind::Cell), one(1, Kind::Value)) }
            50 MakeGenerator(block: BlockId) { slots(two(1, Kind::Iter, $free, Kind::Cell), one(1, Kind::Value)) }
            51 Iter { slots(one(1, Kind::Value), one(1, Kind::Iter)) }
            52 Next(place: Pc) { slots(one(1, Kind::Iter), two(1, Kind::Iter, 1, Kind::Value)).aside(none()).keeping(1) }
            53 Jump(place: Pc) { taking(none()).aside(none()) }
            54 JumpIf(place: Pc) { values(1, 0).aside(none()) }
            55 JumpUnless(place: Pc) { values(1, 0).aside(none()) }
            56 JumpIfKeep(place: Pc) { values(1, 0).aside(one(1, Kind::Value)).keeping(1) }
            57 JumpUnlessKeep(place: Pc) { values(1, 0).aside(one(1, Kind::Value)).keeping(1) }
            58 Return { leaving(one(1, Kind::Value)) }
            59 Yield { values(1, 1) }
            60 Delegate { slots(two(1, Kind::Iter, 1, Kind::Value), one(1, Kind::Value)).or_again() }
            61 Raise { leaving(one(1, Kind::Value)) }
            62 RaiseFrom { leaving(one(2, Kind::Value)) }
            63 RaiseAgain { leaving(none()) }
            64 Match { slots(two(1, Kind::Exc, 1, Kind::Value), two(1, Kind::Exc, 1, Kind::Value)).keeping(1) }
            65 Caught { slots(one(1, Kind::Exc), two(1, Kind::Exc, 1, Kind::Value)) }
            66 EndHandler { slots(one(1, Kind::Exc), none()) }
            67 Rethrow { leaving(one(1, Kind::Exc)) }
            68 Enter { slots(one(1, Kind::Value), two(1, Kind::With, 1, Kind::Value)) }
            69 Normal { slots(none(), one(1, Kind::Pending)) }
            70 Exit { slots(two(1, Kind::With, 1, Kind::Pending), one(1, Kind::Pending)) }
            71 EndFinally { slots(one(1, Kind::Pending), none()).or_leaving() }
            72 Leave(place: Pc) { leaving(none()) }
            73 Import(text: TextNo) { values(0, 1) }
            74 ImportName(text: TextNo) { values(1, 2).keeping(1) }
            75 AssertFail(given: bool) { leaving(one(u32::from(given), Kind::Value)) }
            76 TupleJoin { values(2, 1) }
            77 DictMerge { values(2, 1) }
            78 Super { values(2, 1) }
            79 FreshLocal(slot: SlotNo) { values(0, 0) }
            80 FreshCell(slot: SlotNo) { values(0, 0) }
        }
    };
}

pub(crate) use instructions;
