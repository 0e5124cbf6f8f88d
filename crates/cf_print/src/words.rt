//! Words that no variable of a printed program may have for its name, each with a space before and behind it.
ghost use Rattle.std.specs.Prelude.{◌≡◌};
ghost use Rattle.cf_print.specs.Words.{words_of as words};

use crate::language::Language;

/// The words of Python, and of printed Python.
pub const PYTHON_WORDS: &[u8] = b" \
    Exception False Iterable LINE MAX NoSolution None OverflowError True TypeError and annotations as assert async \
    await bool break case class continue cut def del elif else except finally fit for fresh from frozenset global if \
    import in int is isinstance lambda len line main map match max min none nonlocal not numbers or outcome pass print \
    raise range re read reply return set sorted spelled str sum_of super sys truth try tuple type values while whole \
    with written yield ";

/// The words of C, and of printed C.
pub const C_WORDS: &[u8] = b" \
    BUFSIZ COMFUSY_OVERFLOW END EOF EXIT_FAILURE EXIT_SUCCESS FILENAME_MAX FOPEN_MAX INT16_MAX INT16_MIN INT32_MAX \
    INT32_MIN INT64_MAX INT64_MIN INT8_MAX INT8_MIN INTMAX_MAX INTMAX_MIN INTPTR_MAX INTPTR_MIN INT_FAST16_MAX \
    INT_FAST16_MIN INT_FAST32_MAX INT_FAST32_MIN INT_FAST64_MAX INT_FAST64_MIN INT_FAST8_MAX INT_FAST8_MIN \
    INT_LEAST16_MAX INT_LEAST16_MIN INT_LEAST32_MAX INT_LEAST32_MIN INT_LEAST64_MAX INT_LEAST64_MIN INT_LEAST8_MAX \
    INT_LEAST8_MIN L_ctermid L_tmpnam MAX MB_CUR_MAX NULL PTRDIFF_MAX PTRDIFF_MIN RAND_MAX SEEK_CUR SEEK_END SEEK_SET \
    SIG_ATOMIC_MAX SIG_ATOMIC_MIN SIZE_MAX TMP_MAX UINT16_MAX UINT32_MAX UINT64_MAX UINT8_MAX UINTMAX_MAX UINTPTR_MAX \
    UINT_FAST16_MAX UINT_FAST32_MAX UINT_FAST64_MAX UINT_FAST8_MAX UINT_LEAST16_MAX UINT_LEAST32_MAX UINT_LEAST64_MAX \
    UINT_LEAST8_MAX WCHAR_MAX WCHAR_MIN WCONTINUED WEXITED WINT_MAX WINT_MIN WNOHANG WNOWAIT WSTOPPED WUNTRACED abs \
    add alignas alignof asm at auto bool break case char const constexpr continue default div div_down do double else \
    end enum errno extern false float for free from_halves fwrite getline goto greatest i386 if index inline int \
    int64_t j0 j1 jn least linux long main memcmp mod_up mul nullptr ok out_bytes out_value outcome past put \
    put_number put_text read_number read_truth register reply restrict return short signed size_t sizeof ssize_t \
    static static_assert stderr stdin stdout struct sub sum_of switch thread_local time true typedef typeof uint64_t \
    union unix unsigned used void volatile while white whole y0 y1 yn ";

/// The words of JavaScript, and of printed JavaScript.
pub const JAVASCRIPT_WORDS: &[u8] = b" \
    Array BigInt Error Infinity MAX NaN NoSolution Number Overflow RangeError Set String TypeError arguments as async \
    await break card case catch class const continue cut debugger default delete diff div do else enum eval export \
    extends false finally fit for fresh from function get globalThis greatest if implements import in instanceof inter \
    interface least let line main mod new null numbers of package private process protected public read reply return \
    rising same set set_of spelled static subset sum_of super switch text this throw true truth try typeof undefined \
    union values var void while whole with written yield ";

/// The words of Rust, and of printed Rust.
pub const RUST_WORDS: &[u8] = b" \
    BTreeSet Borrow ComfusyError Err None Ok Option Result Self Some String Value Vec abstract add alloc as async \
    await become bool box break card const continue core crate cut diff do dyn else enum extern false final fit fn for \
    fresh gen i128 if impl in inter let line loop macro macro_rules main match mod move mul mut outputs override priv \
    pub raw read ref replied reply rest return safe same self static std str struct sub subset sum_of super trait true \
    try type typeof u32 u8 union unsafe unsized use usize value values virtual where while white word written yield ";

/// The words that no variable may have for its name.
pub fn words_of(language: Language) -> &'static [u8]
    ensures { result.now ≡ words language }
{
    match language {
        Language::C => C_WORDS,
        Language::Python => PYTHON_WORDS,
        Language::JavaScript => JAVASCRIPT_WORDS,
        Language::Rust => RUST_WORDS,
    }
}
