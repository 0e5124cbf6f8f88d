//! The texts of printed C that are the same in each file.

/// What is told of overflow, up to the first line of the function.
pub const PAST: &[u8] = b" * COMFUSY_OVERFLOW where a number is past MAX.
 */
";

/// Behind the condition that an argument is past.
pub const RETURN_PAST: &[u8] = b")
        return COMFUSY_OVERFLOW;
";

/// Before a number that is written.
pub const PUT_NUMBER: &[u8] = b"        put_number(";

/// Behind a truth value that is written.
pub const TRUE_OR_FALSE: &[u8] = b" ? \"true\" : \"false\");
";

/// What makes `getline` known.
pub const POSIX: &[u8] = b"#define _POSIX_C_SOURCE 200809L
";

/// What each file takes from the library.
pub const STANDARD: &[u8] = b"#include <stdbool.h>
#include <stdint.h>
";

/// What a filter of truth values takes from the library.
pub const STRING: &[u8] = b"#include <string.h>
";

/// The type of numbers, and the greatest one.
pub const NUMBERS: &[u8] = b"
__extension__ typedef __int128 whole;

#define MAX ((((whole)1 << 126) - 1) * 2 + 1) /* 2^127 - 1 */
";

/// The status of overflow.
pub const STATUS: &[u8] = b"
/* The status of a function is 0, or N for no solution at choose N, or this. */
#define COMFUSY_OVERFLOW (-1)

";

/// A number in two halves.
pub const HALVES: &[u8] = b"#define from_halves(high, low) ((whole)(high) << 64 | (low))
";

/// A sum.
pub const ADD: &[u8] = b"/* a + b; past is set where that is past MAX. */
static inline whole add(whole a, whole b, bool *past)
{
    whole z;
    if (!__builtin_add_overflow(a, b, &z) && z >= -MAX)
        return z;
    *past = true;
    return a < 0 ? -MAX : MAX;
}

";

/// The sum of three numbers or more.
pub const SUM_OF: &[u8] = b"/* Behind the parts of a sum. */
#define END (-MAX - 1)

/* The sum of the parts, from left to right; past is set where that is past MAX on its way. */
static inline whole sum_of(const whole *parts, bool *past)
{
    whole sum = 0;
    for (; *parts != END; parts++)
        sum = add(sum, *parts, past);
    return sum;
}

";

/// A difference.
pub const SUB: &[u8] = b"/* a - b; past is set where that is past MAX. */
static inline whole sub(whole a, whole b, bool *past)
{
    return add(a, -b, past);
}

";

/// A product.
pub const MUL: &[u8] = b"/* a * b; past is set where that is past MAX. */
static inline whole mul(whole a, whole b, bool *past)
{
    if (a == (int64_t)a && b == (int64_t)b)
        return a * b;
    whole x = a < 0 ? -a : a, y = b < 0 ? -b : b;
    if (y == 0 || x <= MAX / y)
        return a * b;
    *past = true;
    return (a < 0) != (b < 0) ? -MAX : MAX;
}

";

/// A quotient.
pub const DIV_DOWN: &[u8] = b"/* The quotient by a positive number, rounded down. */
static inline whole div_down(whole a, whole by)
{
    if (a == (int64_t)a && by == (int64_t)by)
        return (int64_t)a / (int64_t)by - ((int64_t)a % (int64_t)by < 0);
    return a / by - (a % by < 0);
}

";

/// A remainder.
pub const MOD_UP: &[u8] = b"/* The remainder by a positive number, from 0 on. */
static inline whole mod_up(whole a, whole by)
{
    whole rest = a % by;
    return rest < 0 ? rest + by : rest;
}

";

/// The lesser of two.
pub const LEAST: &[u8] = b"static inline whole least(whole a, whole b)
{
    return b < a ? b : a;
}

";

/// The greater of two.
pub const GREATEST: &[u8] = b"static inline whole greatest(whole a, whole b)
{
    return b > a ? b : a;
}

";

/// What a filter of lines takes from the library, but for `memcmp`.
pub const INCLUDES: &[u8] = b"#include <stdio.h>
#include <stdlib.h>
";

/// What a filter writes, and white space in what it reads.
pub const PUT: &[u8] = b"
static char out_bytes[1 << 16];
static size_t used;

static void put(char c)
{
    if (used == sizeof out_bytes) {
        fwrite(out_bytes, 1, used, stdout);
        used = 0;
    }
    out_bytes[used++] = c;
}

static void put_text(const char *s)
{
    while (*s)
        put(*s++);
}

static inline void put_number(whole z)
{
    char digits[40];
    int n = 0;
    if (z < 0)
        put('-');
    if (z < 0)
        z = -z;
    for (; z != (int64_t)z; z /= 10)
        digits[n++] = (char)('0' + (int)(z % 10));
    uint64_t rest = (uint64_t)z;
    do
        digits[n++] = (char)('0' + rest % 10);
    while (rest /= 10);
    while (n)
        put(digits[--n]);
}

static bool white(const char **at, const char *end)
{
    const char *from = *at;
    while (*at < end && (**at == ' ' || **at == '\\t'))
        ++*at;
    return *at > from;
}
";

/// A number in a line.
pub const READ_NUMBER: &[u8] = b"
static bool read_number(const char **at, const char *end, whole *value)
{
    bool minus = *at < end && **at == '-';
    *at += minus;
    const char *from = *at;
    whole z = 0;
    for (; *at < end && **at >= '0' && **at <= '9'; ++*at) {
        int digit = **at - '0';
        if (z >= MAX / 10 && (z > MAX / 10 || digit > MAX % 10))
            return false;
        z = 10 * z + digit;
    }
    *value = minus ? -z : z;
    return *at > from;
}
";

/// A truth value in a line.
pub const READ_TRUTH: &[u8] = b"
static bool read_truth(const char **at, const char *end, bool *value)
{
    *value = end - *at >= 4 && !memcmp(*at, \"true\", 4);
    if (!*value && (end - *at < 5 || memcmp(*at, \"false\", 5)))
        return false;
    *at += *value ? 4 : 5;
    return true;
}
";

/// The reply to a line, up to its variables.
pub const REPLY: &[u8] = b"
static void reply(const char *at, const char *end)
{
";

/// From the variables of a reply to what is read.
pub const LONG_LINE: &[u8] = b"    if (end - at > 65536) {
        put_text(\"line too long\");
        return;
    }
    if (end > at && end[-1] == '\\r')
        end--;
    bool ok = true;
";

/// From what is read to the call.
pub const BAD_INPUT: &[u8] = b"    white(&at, end);
    if (!ok || at != end) {
        put_text(\"bad input\");
        return;
    }
    int outcome = ";

/// From the call to what is written.
pub const TOLD: &[u8] = b";
    if (outcome == COMFUSY_OVERFLOW) {
        put_text(\"overflow\");
    } else if (outcome) {
        put_text(\"no solution at choose \");
        put_number(outcome);
    } else {
";

/// Behind what is written.
pub const FILTER_MAIN: &[u8] = b"    }
}

int main(void)
{
    char *line = NULL;
    size_t room = 0;
    ssize_t n;
    while ((n = getline(&line, &room, stdin)) > 0) {
        reply(line, line + n - (line[n - 1] == '\\n'));
        put('\\n');
    }
    fwrite(out_bytes, 1, used, stdout);
    free(line);
    return 0;
}
";
