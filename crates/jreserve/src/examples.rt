//! Worked examples. Each function's contract has numbers and no variables, and its body is empty.

ghost use Rattle.std.specs.Prelude.{◌≡◌};
ghost use Rattle.jreserve.specs.Reserve.{linux_reserve};

/// What Linux keeps on flashes of 4, 16 and 128 MiB, and on one of few small blocks.
pub fn known_reserves()
    ensures small { linux_reserve 65536 64 ≡ 4 }
    ensures usual { linux_reserve 65536 256 ≡ 8 }
    ensures large { linux_reserve 131072 1024 ≡ 24 }
    ensures few { linux_reserve 8192 10 ≡ 3 }
    ensures none { linux_reserve 4096 0 ≡ 2 }
{}
