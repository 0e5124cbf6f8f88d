//! The tableau with bounds, and the search for a point.
use crate::effort::{Effort, Stop};
use crate::numbers::{combination, common, opposite, product, quotient, size, total, unit};
use crate::tableau::Basic;
use cf_linear::Row;
use std::alloc::Global;

/// A number that a variable is not to pass, and the row that says so.
#[derive(Clone, Copy)]
struct Bound {
    value: i128,
    tag: usize,
}

/// A variable: its bounds, its value unless it is basic, and its place among the basic ones.
#[derive(Clone, Copy)]
struct Variable {
    low: Option<Bound>,
    high: Option<Bound>,
    value: i128,
    basic: Option<usize>,
}

/// A sum of columns that rows bound, by the number of its variable.
#[derive(Drop)]
struct Form {
    variable: u32,
    row: Row,
}

/// A row of a conflict by its tag, and its factor, which is at least 0.
#[derive(Clone, Copy, Debug, PartialEq, Eq)]
pub struct Part {
    pub tag: usize,
    pub factor: i128,
}

/// A fraction; the denominator is above 0.
#[derive(Clone, Copy, Debug, PartialEq, Eq)]
pub struct Ratio {
    pub numerator: i128,
    pub denominator: i128,
}

impl Ratio {
    /// The same without a common divisor.
    pub fn lowest(self) -> Ratio {
        let g = common(self.numerator, self.denominator);
        Ratio {
            numerator: quotient(self.numerator, g),
            denominator: quotient(self.denominator, g),
        }
    }
}

/// What a search found.
#[derive(Drop)]
pub enum Found {
    /// A point at which each row is at least 0.
    Point,
    /// Rows whose sum with these factors is a number below 0.
    Conflict(Vec<Part>),
}

/// Between which whole numbers a form lies.
#[derive(Clone, Copy, Debug, PartialEq, Eq)]
pub struct Span {
    pub low: i128,
    pub high: i128,
    /// The variable of the form.
    pub variable: u32,
}

/// Rows that are to be at least 0, with a point that need not be one of them yet.
///
/// Variables are numbered from 1 on: first the forms of more than one column, the last first, and then the
/// columns. Of two variables that may be chosen the first is.
#[derive(Drop)]
pub struct Simplex {
    most_forms: u32,
    forms: Vec<Form>,
    variables: Vec<Variable>,
    rows: Vec<Basic>,
}

/// Which way a variable is to move.
#[derive(Clone, Copy, PartialEq, Eq)]
enum Way {
    Up,
    Down,
}

/// A basic variable that is past a bound of its own.
#[derive(Clone, Copy)]
struct Violated {
    row: usize,
    way: Way,
    bound: Bound,
}

impl Simplex {
    /// No rows yet, with room for so many forms of more than one column.
    pub fn new(alloc: Global, most_forms: u32) -> Simplex {
        Simplex {
            most_forms,
            forms: Vec::new(alloc),
            variables: Vec::new(alloc),
            rows: Vec::new(alloc),
        }
    }

    /// An equal one.
    pub fn try_copy(&self, alloc: Global) -> Result<Simplex, Stop> {
        let forms = copy_forms(alloc, &self.forms)?;
        let rows = copy_rows(alloc, &self.rows)?;
        let variables = Vec::from_slice(alloc, &self.variables)?;
        Ok(Simplex {
            most_forms: self.most_forms,
            forms,
            variables,
            rows,
        })
    }

    /// Adds `row >= 0`, which conflicts name by the tag.
    pub fn add(
        &mut self,
        alloc: Global,
        row: &Row,
        tag: usize,
        effort: &mut Effort,
    ) -> Result<(), Stop> {
        let constant = row.entry(0);
        let Some(first) = first_entry(row) else {
            return Ok(());
        };
        let way = if first > 0 { Way::Up } else { Way::Down };
        let lone = unit(alloc, 0, constant)?;
        let form = match way {
            Way::Up => combination(alloc, 1, row, -1, &lone)?,
            Way::Down => combination(alloc, -1, row, 1, &lone)?,
        };
        let value = match way {
            Way::Up => opposite(constant)?,
            Way::Down => constant,
        };
        let variable = self.variable_of(alloc, form, effort)?;
        self.set_bound(variable, way, Bound { value, tag })
    }

    // The variable of a form, a new one where there is none yet.
    fn variable_of(&mut self, alloc: Global, form: Row, effort: &mut Effort) -> Result<u32, Stop> {
        if form.len() == 1 {
            let (column, entry) = form.at(0);
            if entry == 1 {
                return self.column(column);
            }
        }
        for known in &self.forms {
            if known.row.same(&form) {
                return Ok(known.variable);
            }
        }
        self.new_form(alloc, form, effort)
    }

    // The number of a column's variable.
    fn number_of(&self, column: u32) -> Result<u32, Stop> {
        match self.most_forms.checked_add(column) {
            Some(number) => Ok(number),
            None => Err(Stop::Past),
        }
    }

    fn column(&mut self, column: u32) -> Result<u32, Stop> {
        let number = self.number_of(column)?;
        self.reach(number)?;
        Ok(number)
    }

    // Has the variable among the others.
    fn reach(&mut self, number: u32) -> Result<(), Stop> {
        for _ in self.variables.len()..(number as usize).saturating_add(1) {
            self.variables.push(Variable {
                low: None,
                high: None,
                value: 0,
                basic: None,
            })?;
        }
        Ok(())
    }

    // The number of the next form's variable.
    fn next_variable(&self) -> Result<u32, Stop> {
        let Ok(taken) = u32::try_from(self.forms.len()) else {
            return Err(Stop::Past);
        };
        match self.most_forms.checked_sub(taken) {
            Some(0) | None => Err(Stop::Past),
            Some(variable) => Ok(variable),
        }
    }

    fn new_form(&mut self, alloc: Global, form: Row, effort: &mut Effort) -> Result<u32, Stop> {
        let variable = self.next_variable()?;
        self.reach(variable)?;
        let basic = self.in_terms(alloc, variable, &form)?;
        effort.step(basic.row.len())?;
        let place = self.rows.len();
        self.rows.push(basic)?;
        self.forms.push(Form {
            variable,
            row: form,
        })?;
        self.enter(variable, place);
        Ok(variable)
    }

    // The form in terms of variables that are not basic.
    fn in_terms(&mut self, alloc: Global, variable: u32, form: &Row) -> Result<Basic, Stop> {
        let mut basic = Basic {
            variable,
            denominator: 1,
            row: Row::empty(alloc),
        };
        for i in 0..form.len() {
            let (column, entry) = form.at(i);
            let number = self.column(column)?;
            basic = match self.basic_of(number) {
                Some(known) => basic.plus_basic(alloc, entry, known)?,
                None => basic.plus_variable(alloc, entry, number)?,
            };
        }
        Ok(basic)
    }

    fn basic_of(&self, number: u32) -> Option<&Basic> {
        match self.variables.get(number as usize) {
            Some(variable) => match variable.basic {
                Some(place) => self.rows.get(place),
                None => None,
            },
            None => None,
        }
    }

    // Has the variable keep to the bound as well.
    fn set_bound(&mut self, number: u32, way: Way, bound: Bound) -> Result<(), Stop> {
        match self.variables.get_mut(number as usize) {
            Some(variable) => {
                *variable = bounded(*variable, way, bound);
                Ok(())
            }
            None => Err(Stop::Past),
        }
    }

    /// Looks for a point.
    pub fn search(&mut self, alloc: Global, effort: &mut Effort) -> Result<Found, Stop> {
        if let Some((low, high)) = crossed(&self.variables) {
            return Ok(Found::Conflict(Vec::from_array(alloc, [low, high])?));
        }
        for _ in 0..effort.pivots.saturating_add(1) {
            let Some(violated) = self.first_violated()? else {
                return Ok(Found::Point);
            };
            match self.entering(&violated) {
                Some(number) => self.pivot(alloc, &violated, number, effort)?,
                None => return Ok(Found::Conflict(self.conflict(alloc, &violated)?)),
            }
        }
        Err(Stop::Pivots)
    }

    // The first basic variable that is past a bound.
    fn first_violated(&self) -> Result<Option<Violated>, Stop> {
        for variable in &self.variables {
            if let Some(place) = variable.basic {
                if let Some(basic) = self.rows.get(place) {
                    let at = self.value_of(basic)?;
                    if let Some((way, bound)) = past(variable, at)? {
                        return Ok(Some(Violated {
                            row: place,
                            way,
                            bound,
                        }));
                    }
                }
            }
        }
        Ok(None)
    }

    fn value_of(&self, basic: &Basic) -> Result<Ratio, Stop> {
        let mut numerator = 0;
        for i in 0..basic.row.len() {
            let (number, entry) = basic.row.at(i);
            let value = match self.variables.get(number as usize) {
                Some(variable) => variable.value,
                None => 0,
            };
            numerator = total(numerator, product(entry, value)?)?;
        }
        Ok(Ratio {
            numerator,
            denominator: basic.denominator,
        })
    }

    // The first variable of the row by which the basic one can move its way.
    fn entering(&self, violated: &Violated) -> Option<u32> {
        let basic = self.rows.get(violated.row)?;
        for i in 0..basic.row.len() {
            let (number, entry) = basic.row.at(i);
            if let Some(variable) = self.variables.get(number as usize) {
                if can_move(variable, way_of(violated.way, entry)) {
                    return Some(number);
                }
            }
        }
        None
    }

    // Sets the basic variable to its bound, and has another one take its place.
    fn pivot(
        &mut self,
        alloc: Global,
        violated: &Violated,
        number: u32,
        effort: &mut Effort,
    ) -> Result<(), Stop> {
        effort.pivot()?;
        let left = self.variable_at(violated.row)?;
        let new = self.solved(alloc, violated.row, number)?;
        self.install(alloc, violated.row, new, effort)?;
        self.leave(left, violated.bound.value);
        self.enter(number, violated.row);
        Ok(())
    }

    // The basic variable of a row.
    fn variable_at(&self, place: usize) -> Result<u32, Stop> {
        match self.rows.get(place) {
            Some(basic) => Ok(basic.variable),
            None => Err(Stop::Past),
        }
    }

    // The row, solved for one of its variables.
    fn solved(&self, alloc: Global, place: usize, number: u32) -> Result<Basic, Stop> {
        match self.rows.get(place) {
            Some(basic) => basic.solved_for(alloc, number),
            None => Err(Stop::Past),
        }
    }

    // Puts a row in its place, and what its variable is in all others.
    fn install(
        &mut self,
        alloc: Global,
        place: usize,
        new: Basic,
        effort: &mut Effort,
    ) -> Result<(), Stop> {
        effort.step(new.row.len().saturating_mul(self.rows.len()))?;
        replace(alloc, &mut self.rows, &new)?;
        put(&mut self.rows, place, new);
        Ok(())
    }

    // The variable is not basic any more, and has this value.
    fn leave(&mut self, number: u32, value: i128) {
        if let Some(variable) = self.variables.get_mut(number as usize) {
            variable.basic = None;
            variable.value = value;
        }
    }

    // The variable is that of the row at the place.
    fn enter(&mut self, number: u32, place: usize) {
        if let Some(variable) = self.variables.get_mut(number as usize) {
            variable.basic = Some(place);
        }
    }

    // The bounds for which no variable of the row can move.
    fn conflict(&self, alloc: Global, violated: &Violated) -> Result<Vec<Part>, Stop> {
        let mut parts = Vec::new(alloc);
        let Some(basic) = self.rows.get(violated.row) else {
            return Err(Stop::Past);
        };
        parts.push(Part {
            tag: violated.bound.tag,
            factor: basic.denominator,
        })?;
        for i in 0..basic.row.len() {
            let (number, entry) = basic.row.at(i);
            if let Some(variable) = self.variables.get(number as usize) {
                if let Some(bound) = bound_of(variable, way_of(violated.way, entry)) {
                    parts.push(Part {
                        tag: bound.tag,
                        factor: size(entry)?,
                    })?;
                }
            }
        }
        Ok(parts)
    }

    /// The value of a column at the point.
    pub fn value(&self, column: u32) -> Result<Ratio, Stop> {
        self.value_at(self.number_of(column)?)
    }

    /// The value of a variable at the point.
    pub fn value_at(&self, number: u32) -> Result<Ratio, Stop> {
        match self.basic_of(number) {
            Some(basic) => Ok(self.value_of(basic)?.lowest()),
            None => Ok(Ratio {
                numerator: match self.variables.get(number as usize) {
                    Some(variable) => variable.value,
                    None => 0,
                },
                denominator: 1,
            }),
        }
    }

    /// Between which numbers a column lies, if it has both bounds.
    pub fn span_of_column(&self, column: u32) -> Option<Span> {
        match self.number_of(column) {
            Ok(number) => span_of(self.variables.get(number as usize)?, number),
            Err(_) => None,
        }
    }

    /// The narrowest column or form of more than one value that has both bounds.
    pub fn narrowest(&self) -> Option<Span> {
        let mut best: Option<Span> = None;
        let mut next: u32 = 0;
        for variable in &self.variables {
            if let Some(span) = span_of(variable, next) {
                best = narrower(best, span);
            }
            next = next.saturating_add(1);
        }
        best
    }

    /// The form of a variable, as a row without constant.
    pub fn row_of(&self, alloc: Global, number: u32) -> Result<Row, Stop> {
        for form in &self.forms {
            if form.variable == number {
                return Ok(form.row.try_copy(alloc)?);
            }
        }
        match number.checked_sub(self.most_forms) {
            Some(column) => unit(alloc, column, 1),
            None => Err(Stop::Past),
        }
    }
}

// The entry of the first column but the constant.
fn first_entry(row: &Row) -> Option<i128> {
    for i in 0..row.len() {
        let (column, entry) = row.at(i);
        if column != 0 {
            return Some(entry);
        }
    }
    None
}

// The way that a variable with this entry moves where the row's own moves that way.
fn way_of(way: Way, entry: i128) -> Way {
    match way {
        Way::Up => { if entry > 0 { Way::Up } else { Way::Down } }
        Way::Down => { if entry > 0 { Way::Down } else { Way::Up } }
    }
}

fn bound_of(variable: &Variable, way: Way) -> Option<Bound> {
    match way {
        Way::Up => variable.high,
        Way::Down => variable.low,
    }
}

fn can_move(variable: &Variable, way: Way) -> bool {
    match bound_of(variable, way) {
        Some(bound) => match way {
            Way::Up => variable.value < bound.value,
            Way::Down => variable.value > bound.value,
        },
        None => true,
    }
}

// The variable with the bound, if that is the tighter one, and at a value that keeps to it.
fn bounded(variable: Variable, way: Way, bound: Bound) -> Variable {
    let mut variable = variable;
    match way {
        Way::Up => {
            let tighter = match variable.low {
                Some(low) => bound.value > low.value,
                None => true,
            };
            if tighter {
                variable.low = Some(bound);
            }
            if variable.value < bound.value {
                variable.value = bound.value;
            }
        }
        Way::Down => {
            let tighter = match variable.high {
                Some(high) => bound.value < high.value,
                None => true,
            };
            if tighter {
                variable.high = Some(bound);
            }
            if variable.value > bound.value {
                variable.value = bound.value;
            }
        }
    }
    variable
}

// The bound that the value is past, and the way back.
fn past(variable: &Variable, at: Ratio) -> Result<Option<(Way, Bound)>, Stop> {
    if let Some(low) = variable.low {
        if at.numerator < product(low.value, at.denominator)? {
            return Ok(Some((Way::Up, low)));
        }
    }
    if let Some(high) = variable.high {
        if at.numerator > product(high.value, at.denominator)? {
            return Ok(Some((Way::Down, high)));
        }
    }
    Ok(None)
}

// The bounds of a variable with none between them.
fn crossed(variables: &[Variable]) -> Option<(Part, Part)> {
    for variable in variables {
        if let Some(low) = variable.low {
            if let Some(high) = variable.high {
                if low.value > high.value {
                    return Some((part_of(low), part_of(high)));
                }
            }
        }
    }
    None
}

fn part_of(bound: Bound) -> Part {
    Part {
        tag: bound.tag,
        factor: 1,
    }
}

fn span_of(variable: &Variable, number: u32) -> Option<Span> {
    let low = variable.low?;
    let high = variable.high?;
    if low.value < high.value {
        Some(Span {
            low: low.value,
            high: high.value,
            variable: number,
        })
    } else {
        None
    }
}

fn narrower(best: Option<Span>, span: Span) -> Option<Span> {
    match best {
        Some(known) => {
            let old = known.high.saturating_sub(known.low);
            let new = span.high.saturating_sub(span.low);
            if new < old { Some(span) } else { Some(known) }
        }
        None => Some(span),
    }
}

fn copy_forms(alloc: Global, forms: &[Form]) -> Result<Vec<Form>, Stop> {
    let mut all = Vec::new(alloc);
    for form in forms {
        let row = form.row.try_copy(alloc)?;
        all.push(Form {
            variable: form.variable,
            row,
        })?;
    }
    Ok(all)
}

fn copy_rows(alloc: Global, rows: &[Basic]) -> Result<Vec<Basic>, Stop> {
    let mut all = Vec::new(alloc);
    for row in rows {
        all.push(row.try_copy(alloc)?)?;
    }
    Ok(all)
}

// Puts the new row in the place of its variable in all others.
fn replace(alloc: Global, rows: &mut Vec<Basic>, new: &Basic) -> Result<(), Stop> {
    for i in 0..rows.len() {
        if let Some(with) = with_new(alloc, rows, i, new)? {
            put(rows, i, with);
        }
    }
    Ok(())
}

// Puts the row in its place.
fn put(rows: &mut Vec<Basic>, place: usize, new: Basic) {
    if let Some(row) = rows.get_mut(place) {
        *row = new;
    }
}

fn with_new(
    alloc: Global,
    rows: &[Basic],
    place: usize,
    new: &Basic,
) -> Result<Option<Basic>, Stop> {
    match rows.get(place) {
        Some(row) => {
            if row.row.entry(new.variable) == 0 {
                Ok(None)
            } else {
                Ok(Some(row.with(alloc, new)?))
            }
        }
        None => Ok(None),
    }
}
