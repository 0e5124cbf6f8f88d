//! The texts of printed JavaScript that are the same in each file.

/// What is told of overflow, up to the parameters.
pub const PAST: &[u8] = b" * Overflow where a number is past MAX.
 *
";

/// From the parameters to what the function returns.
pub const RETURNS: &[u8] = b" * @returns {";

/// From what the function returns to its first line.
pub const THROWS: &[u8] = b"}
 * @throws {NoSolution | Overflow}
 */
";

/// What makes an argument a set, from its name on.
pub const AS_NUMBERS: &[u8] = b" = numbers(";

/// The greatest number.
pub const MAX: &[u8] = b"
const MAX = 2n ** 127n - 1n;
";

/// The exception where there is no solution.
pub const NONE: &[u8] = b"
/** No outputs satisfy the relation of this choose. */
export class NoSolution extends Error {
  constructor(choose) {
    super(`no solution at choose ${choose}`);
    this.name = \"NoSolution\";
    this.choose = choose;
  }
}
";

/// The exception where a number is past the limit.
pub const OVERFLOW: &[u8] = b"
/** A number is past MAX in absolute value. */
export class Overflow extends Error {
  constructor() {
    super(\"overflow\");
    this.name = \"Overflow\";
  }
}
";

/// The check of a number.
pub const FIT: &[u8] = b"
/** The number, where it is at most MAX in absolute value. */
function fit(number) {
  if (number > MAX || number < -MAX) throw new Overflow();
  return number;
}
";

/// The sum of three numbers or more.
pub const SUM_OF: &[u8] = b"
/** The sum of the parts, where it is at most MAX in absolute value on its way from left to right. */
function sum_of(...parts) {
  return parts.reduce((sum, part) => fit(sum + part), 0n);
}
";

/// The check of an argument that is a number.
pub const WHOLE: &[u8] = b"
/** The argument, where it is a whole number of at most MAX in absolute value. */
function whole(value) {
  if (typeof value !== \"bigint\") throw new TypeError(\"a bigint is expected\");
  return fit(value);
}
";

/// The check of an argument that is a truth value.
pub const TRUTH: &[u8] = b"
/** The argument, where it is a truth value. */
function truth(value) {
  if (typeof value !== \"boolean\") throw new TypeError(\"a boolean is expected\");
  return value;
}
";

/// Numbers as a set, in their order.
pub const RISING: &[u8] = b"
/** The numbers as a set whose order is rising. */
function rising(items) {
  return new Set([...items].sort((a, b) => (a < b ? -1 : a > b ? 1 : 0)));
}
";

/// The check of an argument that is a set.
pub const NUMBERS: &[u8] = b"
/** The argument, any iterable of whole numbers, as a set. */
function numbers(value) {
  return rising(Array.from(value, (x) => whole(x)));
}
";

/// A set of numbers that are written out.
pub const SET_OF: &[u8] = b"
function set_of(...items) {
  return rising(items);
}
";

/// A quotient.
pub const DIV: &[u8] = b"
/** The quotient by a positive number, rounded down. */
function div(number, by) {
  return number / by - (number % by < 0n ? 1n : 0n);
}
";

/// A remainder.
pub const MOD: &[u8] = b"
/** The remainder by a positive number, from 0 on. */
function mod(number, by) {
  const rest = number % by;
  return rest < 0n ? rest + by : rest;
}
";

/// The least of some.
pub const LEAST: &[u8] = b"
function least(...items) {
  return items.reduce((a, b) => (b < a ? b : a));
}
";

/// The greatest of some.
pub const GREATEST: &[u8] = b"
function greatest(...items) {
  return items.reduce((a, b) => (b > a ? b : a));
}
";

/// The union of sets.
pub const UNION: &[u8] = b"
function union(...sets) {
  return rising(sets.flatMap((set) => [...set]));
}
";

/// The intersection of sets.
pub const INTER: &[u8] = b"
function inter(first, ...sets) {
  return new Set([...first].filter((x) => sets.every((set) => set.has(x))));
}
";

/// The difference of sets.
pub const DIFF: &[u8] = b"
function diff(a, b) {
  return new Set([...a].filter((x) => !b.has(x)));
}
";

/// Whether a set lies in another.
pub const SUBSET: &[u8] = b"
function subset(a, b) {
  return [...a].every((x) => b.has(x));
}
";

/// Whether two sets are the same.
pub const SAME: &[u8] = b"
function same(a, b) {
  return a.size === b.size && [...a].every((x) => b.has(x));
}
";

/// How many elements a set has.
pub const CARD: &[u8] = b"
function card(items) {
  return BigInt(items.size);
}
";

/// A slice of a set.
pub const SLICE: &[u8] = b"
/** The elements at the places start .. start + count - 1 of the rising list. */
function cut(items, start, count) {
  const all = [...items];
  const size = BigInt(all.length);
  const from = start < 0n ? 0n : start > size ? size : start;
  const to = count < 0n ? from : count > size - from ? size : from + count;
  return new Set(all.slice(Number(from), Number(to)));
}
";

/// Numbers that are not in a set.
pub const FRESH: &[u8] = b"
/** The least numbers from 0 upwards that are not in the set. */
function fresh(items, count) {
  const out = new Set();
  for (let x = 0n; out.size < count; x++) if (!items.has(x)) out.add(x);
  return out;
}
";

/// How a filter reads lines, up to the pattern of a line.
pub const FILTER: &[u8] = b"
const line = /^";

/// From the pattern of a line to what a reply holds.
pub const REPLY: &[u8] = b"$/;

function read(text) {
  if (text[0] === \"t\" || text[0] === \"f\") return text === \"true\";
  const items = text.match(/-?[0-9]+/g) ?? [];
  const values = items.map((x) => (x[0] === \"-\" ? -BigInt(x.slice(1)) : BigInt(x)));
  if (values.some((x) => x > MAX || x < -MAX)) return undefined;
  return text[0] === \"{\" ? values : values[0];
}

function written(value) {
  return value instanceof Set ? `{${[...value].join(\",\")}}` : String(value);
}

function reply(text) {
  if (text.length > 65536) return \"line too long\";
  const spelled = line.exec(text.endsWith(\"\\r\") ? text.slice(0, -1) : text);
  const values = spelled?.slice(1).map(read);
  if (values === undefined || values.includes(undefined)) return \"bad input\";
  try {
    return ";

/// Behind what a reply holds.
pub const FILTER_MAIN: &[u8] = b";
  } catch (error) {
    if (error instanceof NoSolution || error instanceof Overflow) return error.message;
    throw error;
  }
}

async function main() {
  process.stdin.setEncoding(\"latin1\");
  let rest = \"\";
  for await (const piece of process.stdin) {
    const lines = (rest + piece).split(\"\\n\");
    rest = lines.pop();
    if (lines.length) process.stdout.write(lines.map((text) => reply(text) + \"\\n\").join(\"\"));
  }
  if (rest !== \"\") process.stdout.write(reply(rest) + \"\\n\");
}

await main();
";
