//! Laws of the definitions that contracts cite. Each one is the contract of a function without a body.
ghost use Rattle.std.specs.Prelude.{◌≡◌, ℕ, List};
ghost use Rattle.tt_base.specs.Forest.{Root};
ghost use Rattle.tt_bytes.specs.Format.{AreBytesOf};

/// Bytes belong to at most one tree, and a tree has only one list of bytes. So two trees are equal exactly if their bytes are equal.
pub fn bytes_tell()
    ensures tree { (one other : Root) → (bytes : List ℕ) → AreBytesOf one bytes → AreBytesOf other bytes → one ≡ other }
    ensures bytes { (root : Root) → (one other : List ℕ) → AreBytesOf root one → AreBytesOf root other → one ≡ other }
{}
