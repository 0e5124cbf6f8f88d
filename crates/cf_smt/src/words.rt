//! Words that no variable may have for its name, each with a space before and behind it.

/// The words of SMT-LIB, and those that Z3 and cvc5 have besides.
pub const SMT_WORDS: &[u8] = b" \
    Array BINARY Bool DECIMAL HEXADECIMAL Int NUMERAL RNA RNE RTN RTP RTZ Real STRING String abs and arccos arccot arccsc \
    arcsec arcsin arctan as assert bag bv2nat bvadd bvand bvashr bvcomp bvlshr bvmul bvnand bvneg bvnor bvnot bvor \
    bvredand bvredor bvsaddo bvsdiv bvsdivo bvsge bvsgt bvshl bvsle bvslt bvsmod bvsmulo bvsrem bvssubo bvsub bvuaddo \
    bvudiv bvuge bvugt bvule bvult bvumulo bvurem bvusubo bvxnor bvxor card concat const cos cot csc distinct div divisible \
    echo emp eqrange exists exit exp extract false forall fp implies include is is_int ite let match member mod not or par pi \
    pop pto push repeat reset roundNearestTiesToAway roundNearestTiesToEven roundTowardNegative roundTowardPositive \
    roundTowardZero sec select sep set simplify sin sqrt store subset tan to_int to_real true tuple union update wand xor ";
