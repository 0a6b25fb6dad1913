//! The expressions and patterns of a query, by its terminals.
ghost use Rattle.std.specs.Prelude.{◌≡◌, IfOk};
ghost use Rattle.std.specs.Str.{chars};

use crate::texts::Text;
use sparql_lexer::{Keyword, Kind, Sign};
use std::alloc::{AllocError, Global};

/// What an expression is for.
#[derive(Clone, Copy, PartialEq, Eq)]
pub enum SiteKind {
    /// The FILTERs of a group.
    Filter,
    /// The FILTERs of a group within MINUS.
    Removal,
    /// The FILTERs of an OPTIONAL, or none.
    Optional,
    /// A BIND.
    Bind,
}

/// An expression of the plan, as it is in the text.
#[derive(Drop)]
pub struct Site {
    pub kind: SiteKind,
    /// The terminals FILTER or BIND, by their places in the list of terminals.
    pub keywords: Vec<usize>,
    /// The terminal of the variable that a BIND binds.
    pub variable: Option<usize>,
}

/// What a query has, as places in the list of its terminals.
pub struct Outline {
    /// The query.
    pub text: Text,
    /// The expressions. An operator's own is after those of its left side and its right side, in
    /// this order.
    pub sites: Vec<Site>,
    /// The variables in the expressions of FILTER and BIND.
    pub variables: Vec<usize>,
    /// The first terminal of a triple pattern outside of GRAPH.
    pub pattern: Option<usize>,
}

impl Drop for Outline {
    /// Drops the outline. Written by hand (docs/PROOF.md).
    fn drop(self) {
        let Outline {
            text: _,
            sites: _,
            variables: _,
            pattern: _,
        } = self;
    }
}

/// A group that is open.
#[derive(Drop)]
struct Frame {
    opening: Opening,
    is_in_graph: bool,
    is_in_minus: bool,
    filters: Vec<usize>,
}

/// What the next group is for.
#[derive(Clone, Copy, PartialEq, Eq)]
enum Opening {
    Group,
    Optional,
    Minus,
    Graph,
}

/// Which part of a group comes next.
#[derive(Clone, Copy)]
enum Part {
    Patterns,
    /// The name after GRAPH.
    GraphName,
    /// The expression of FILTER.
    Filter,
    /// The expression of BIND, up to AS.
    Bind,
    /// The variable after AS.
    Target,
    /// The variables and rows of VALUES.
    Values,
}

/// The part of the query so far.
#[derive(Drop)]
struct Scanner {
    alloc: Global,
    sites: Vec<Site>,
    variables: Vec<usize>,
    pattern: Option<usize>,
    frames: Vec<Frame>,
    opening: Opening,
    part: Part,
    /// The number of open parentheses in an expression.
    depth: usize,
}

/// Returns the outline of the query with this text.
///
/// # Errors
/// `AllocError` if an allocation fails.
pub fn outline_of(alloc: Global, text: &str) -> Result<Outline, AllocError>
    ensures characters { IfOk result (λ outline. outline.text.characters.items ≡ chars text.now) }
{
    let text = Text::new(alloc, text)?;
    let mut scanner = Scanner {
        alloc,
        sites: Vec::new(alloc),
        variables: Vec::new(alloc),
        pattern: None,
        frames: Vec::new(alloc),
        opening: Opening::Group,
        part: Part::Patterns,
        depth: 0,
    };
    for at in 0..text.terminals.len() {
        scanner.read(at, text.terminals[at].kind)?;
    }
    let Scanner {
        sites,
        variables,
        pattern,
        ..
    } = scanner;
    Ok(Outline {
        text,
        sites,
        variables,
        pattern,
    })
}

impl Scanner {
    /// Reads the terminal at a place.
    fn read(&mut self, at: usize, kind: Kind) -> Result<(), AllocError> {
        match self.part {
            Part::Patterns => self.read_in_patterns(at, kind),
            Part::GraphName => self.read_graph_name(kind),
            Part::Filter => self.read_expression(at, kind),
            Part::Bind if kind == Kind::Keyword(Keyword::As) => {
                self.part = Part::Target;
                Ok(())
            }
            Part::Bind => self.read_expression(at, kind),
            Part::Target => self.read_target(at, kind),
            Part::Values => {
                if kind == Kind::Sign(Sign::CloseBrace) {
                    self.part = Part::Patterns;
                }
                Ok(())
            }
        }
    }

    fn read_in_patterns(&mut self, at: usize, kind: Kind) -> Result<(), AllocError> {
        match kind {
            Kind::Sign(Sign::OpenBrace) => self.open_group(),
            Kind::Sign(Sign::CloseBrace) => self.close_group(),
            Kind::Sign(_) => Ok(()),
            Kind::Keyword(keyword) => self.read_keyword(at, keyword),
            _ => {
                self.read_term(at);
                Ok(())
            }
        }
    }

    fn read_keyword(&mut self, at: usize, keyword: Keyword) -> Result<(), AllocError> {
        match keyword {
            Keyword::Filter => return self.begin_filter(at),
            Keyword::Bind => return self.begin_bind(at),
            Keyword::Values => self.part = Part::Values,
            Keyword::Graph => self.part = Part::GraphName,
            Keyword::Optional => self.opening = Opening::Optional,
            Keyword::Minus => self.opening = Opening::Minus,
            _ => {}
        }
        Ok(())
    }

    /// Reads a term of a triple pattern, or something outside of the query's group.
    fn read_term(&mut self, at: usize) {
        let is_in_graph = match self.frames.last() {
            Some(frame) => frame.is_in_graph,
            None => true,
        };
        if !is_in_graph && self.pattern.is_none() {
            self.pattern = Some(at);
        }
    }

    fn read_graph_name(&mut self, kind: Kind) -> Result<(), AllocError> {
        if kind == Kind::Sign(Sign::OpenBrace) {
            self.part = Part::Patterns;
            self.opening = Opening::Graph;
            self.open_group()
        } else {
            Ok(())
        }
    }

    fn open_group(&mut self) -> Result<(), AllocError> {
        let (in_graph, in_minus) = match self.frames.last() {
            Some(frame) => (frame.is_in_graph, frame.is_in_minus),
            None => (false, false),
        };
        let frame = Frame {
            opening: self.opening,
            is_in_graph: in_graph || self.opening == Opening::Graph,
            is_in_minus: in_minus || self.opening == Opening::Minus,
            filters: Vec::new(self.alloc),
        };
        self.opening = Opening::Group;
        self.frames.push(frame)?;
        Ok(())
    }

    /// Ends a group. Its FILTERs are one expression, after all others of the group.
    fn close_group(&mut self) -> Result<(), AllocError> {
        let Some(frame) = self.frames.pop() else {
            return Ok(());
        };
        let kind = if frame.opening == Opening::Optional {
            SiteKind::Optional
        } else if frame.is_in_minus {
            SiteKind::Removal
        } else {
            SiteKind::Filter
        };
        if kind == SiteKind::Optional || !frame.filters.is_empty() {
            let Frame { filters, .. } = frame;
            self.sites.push(Site {
                kind,
                keywords: filters,
                variable: None,
            })?;
        }
        Ok(())
    }

    fn begin_filter(&mut self, at: usize) -> Result<(), AllocError> {
        self.part = Part::Filter;
        self.depth = 0;
        match self.frames.last_mut() {
            Some(frame) => Ok(frame.filters.push(at)?),
            None => Ok(()),
        }
    }

    fn begin_bind(&mut self, at: usize) -> Result<(), AllocError> {
        self.part = Part::Bind;
        self.depth = 0;
        let mut keywords = Vec::new(self.alloc);
        keywords.push(at)?;
        self.sites.push(Site {
            kind: SiteKind::Bind,
            keywords,
            variable: None,
        })?;
        Ok(())
    }

    /// Reads a terminal of an expression, which ends with its last closing parenthesis.
    fn read_expression(&mut self, at: usize, kind: Kind) -> Result<(), AllocError> {
        match kind {
            Kind::Variable => self.variables.push(at)?,
            Kind::Sign(Sign::OpenParenthesis) => self.depth = self.depth.saturating_add(1),
            Kind::Sign(Sign::CloseParenthesis) => {
                self.depth = self.depth.saturating_sub(1);
                if self.depth == 0 {
                    self.part = Part::Patterns;
                }
            }
            _ => {}
        }
        Ok(())
    }

    fn read_target(&mut self, at: usize, kind: Kind) -> Result<(), AllocError> {
        match kind {
            Kind::Variable => {
                if let Some(site) = self.sites.last_mut() {
                    site.variable = Some(at);
                }
            }
            _ => self.part = Part::Patterns,
        }
        Ok(())
    }
}
